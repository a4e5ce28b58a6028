// The host's files.
ghost use Rattle.std.specs.Prelude.{◌≡◌, ◌≤◌, length, IfOk};

use crate::files::{Failed, Files, OutFault};
use std::fs::{File, Metadata, OpenOptions};
use std::io::{ErrorKind, Write};
use std::os::unix::fs::{FileExt, MetadataExt};
use std::{fs, io};

// A device that anyone may open.
const NULL_DEVICE: &str = "/dev/null";

/// The files of the host. It tells no contents. One count of reads and one of writes serve all
/// names, and each rises at each error of its kind.
///
/// A pipe, a device or a folder is no file, and a call under its name fails at once.
///
/// `create` keeps its file open and locked, until the next `create` or the end of the program. It
/// fails where another program has the file locked so, and changes nothing then. A piece is added
/// to the file that was created last, and to no other: `append` fails where another file, or none,
/// has the name by then.
#[derive(Drop)]
pub struct HostFiles {
    rt: HostRuntime,
    failed_reads: u64,
    failed_writes: u64,
    last_read: Option<OpenedFile>,
    created: Option<File>,
    standing_in: [Option<File>; 3],
}

// A file that is kept open for the next read under its name, so that a long one isn't opened
// again for each piece.
#[derive(Drop)]
struct OpenedFile {
    name: String,
    file: File,
}

impl HostFiles {
    ghost use Rattle.std.specs.Prelude.{ℕ, List};
    ghost use Rattle.mp_outside.specs.Host.{read_count, write_count};

    /// The files that the runtime gives, with no fault yet.
    ///
    /// Where a standard stream was closed before the program began, the next file that is opened
    /// gets the stream's descriptor, and a report would land in it. So up to three descriptors are
    /// taken here first, for reading alone: a write to such a stream fails.
    pub fn new(rt: HostRuntime) -> HostFiles
        ensures reads { (name : List ℕ) → read_count result name ≡ 0 }
        ensures writes { (name : List ℕ) → write_count result name ≡ 0 }
    {
        HostFiles {
            rt,
            failed_reads: 0,
            failed_writes: 0,
            last_read: None,
            created: None,
            standing_in: [stand_in(&rt), stand_in(&rt), stand_in(&rt)],
        }
    }

    // Reads from the file kept open, or from a file that is opened and kept from then on.
    fn read_some(&mut self, name: &str, at: u64, buf: &mut [u8]) -> io::Result<usize>
        ensures bound { IfOk result (λ count. count ≤ length buf.new) }
        ensures reads { self.new.failed_reads ≡ self.old.failed_reads }
        ensures writes { self.new.failed_writes ≡ self.old.failed_writes }
    {
        if let Some(opened) = &self.last_read {
            if opened.name.as_str() == name {
                return read_from(&opened.file, at, buf);
            }
        }
        let file = open_file(&self.rt, OpenOptions::new().read(true), name)?;
        let count = read_from(&file, at, buf)?;
        if let Ok(name) = String::from_str(self.rt.alloc(), name) {
            self.last_read = Some(OpenedFile { name, file });
        }
        Ok(count)
    }
}

// Takes the lowest free descriptor.
fn stand_in(rt: &HostRuntime) -> Option<File> {
    File::open(rt, NULL_DEVICE).ok()
}

// Opens a file and nothing else. What the name stands for is looked at first, since opening a pipe
// waits for its other end.
fn open_file(rt: &HostRuntime, how: &OpenOptions, name: &str) -> io::Result<File> {
    if let Ok(found) = fs::metadata(rt, name) {
        if !found.is_file() {
            return Err(io::Error::from(ErrorKind::InvalidInput));
        }
    }
    how.open(rt, name)
}

// Reads at a place, once more wherever a signal came between.
fn read_from(file: &File, at: u64, buf: &mut [u8]) -> io::Result<usize>
    ensures { IfOk result (λ count. count ≤ length buf.new) }
{
    for _ in 0..u64::MAX {
        match file.read_at(buf, at) {
            Err(error) if error.kind() == ErrorKind::Interrupted => {}
            answer => return answer,
        }
    }
    Err(io::Error::from(ErrorKind::Interrupted))
}

// Makes a file empty, and makes it where there is none. It is locked before it is emptied, so a
// file that another program writes stays as it is.
fn create_file(rt: &HostRuntime, name: &str) -> io::Result<File> {
    let file = open_file(rt, OpenOptions::new().append(true).create(true), name)?;
    file.try_lock()?;
    file.set_len(0)?;
    Ok(file)
}

// Adds a piece to a file that still has this name.
fn add_to_file(rt: &HostRuntime, name: &str, file: &mut File, piece: &[u8]) -> io::Result<()> {
    if !is_same_file(&fs::metadata(rt, name)?, &file.metadata()?) {
        return Err(io::Error::from(ErrorKind::NotFound));
    }
    file.write_all(piece)
}

fn is_same_file(a: &Metadata, b: &Metadata) -> bool {
    a.dev() == b.dev() && a.ino() == b.ino()
}

impl Files for HostFiles {
    ghost use Rattle.mp_outside.specs.Host.{files_seen};

    ghost seen = { files_seen };

    fn read_at(&mut self, name: &str, at: u64, buf: &mut [u8]) -> Result<usize, Failed> {
        match self.read_some(name, at, buf) {
            Ok(count) => Ok(count),
            Err(_) => {
                self.failed_reads = self.failed_reads.saturating_add(1);
                Err(Failed)
            }
        }
    }

    fn create(&mut self, name: &str) -> Result<(), OutFault> {
        self.last_read = None;
        // The file that was created before is unlocked, also where it is the same.
        self.created = None;
        match create_file(&self.rt, name) {
            Ok(file) => {
                self.created = Some(file);
                Ok(())
            }
            Err(_) => {
                self.failed_writes = self.failed_writes.saturating_add(1);
                Err(OutFault::Failed)
            }
        }
    }

    fn append(&mut self, name: &str, piece: &[u8]) -> Result<(), OutFault> {
        self.last_read = None;
        let added = match &mut self.created {
            Some(file) => add_to_file(&self.rt, name, file, piece),
            None => Err(io::Error::from(ErrorKind::NotFound)),
        };
        if added.is_err() {
            self.failed_writes = self.failed_writes.saturating_add(1);
            return Err(OutFault::Failed);
        }
        Ok(())
    }
}
