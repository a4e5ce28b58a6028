// Files in memory, which fail as told.
ghost use Rattle.std.specs.Prelude.{◌≡◌, None, Some, OnOk, OnErr, option_map};

mod steps;

use self::steps::{append_to, create_new};
use crate::calls::Calls;
use crate::copy::copy_from;
use crate::files::{Failed, Files, OutFault};
use mp_number::NoMemory;
use std::alloc::Global;
use std::collections::BTreeMap;

/// A kind of calls.
#[derive(Clone, Copy, Debug, PartialEq, Eq)]
pub enum CallKind {
    /// `read_at`.
    Read,
    /// `create`.
    Create,
    /// `append`.
    Append,
}

// The bytes under a name, with the counts of its faults.
#[derive(Drop)]
struct MemFile {
    bytes: Vec<u8>,
    reads: u64,
    writes: u64,
}

/// Files in memory, whose calls fail where that was planned. The counts of a held name stand beside
/// its bytes. One pair of counts serves all names under which nothing is held, and a new name
/// begins with it.
#[derive(Drop)]
pub struct MemFiles {
    alloc: Global,
    files: BTreeMap<String, MemFile>,
    other_reads: u64,
    other_writes: u64,
    read_calls: Calls,
    create_calls: Calls,
    append_calls: Calls,
}

impl MemFiles {
    ghost use Rattle.std.specs.Prelude.{ℕ, List};
    ghost use Rattle.mp_outside.specs.Causes.{SameCounts};
    ghost use Rattle.mp_outside.specs.Contents.{SameHeld, OnlyHeldAt};
    ghost use Rattle.mp_outside.specs.Calls.{with_failing};
    ghost use Rattle.mp_outside.specs.Memory.{content, read_count, write_count, plans, with_plan, no_calls};

    /// Nothing held, no fault yet, and no call to fail.
    pub fn new(alloc: Global) -> MemFiles
        ensures empty { (name : List ℕ) → content result name ≡ None }
        ensures reads { (name : List ℕ) → read_count result name ≡ 0 }
        ensures writes { (name : List ℕ) → write_count result name ≡ 0 }
        ensures plans { plans result ≡ no_calls }
    {
        MemFiles {
            alloc,
            files: BTreeMap::new(alloc),
            other_reads: 0,
            other_writes: 0,
            read_calls: Calls::new(alloc),
            create_calls: Calls::new(alloc),
            append_calls: Calls::new(alloc),
        }
    }

    /// Holds these bytes under the name. Without memory for them nothing changes.
    #[tactic(auto, using(std::proofs::lemmas::Map::Text::text_keys))]
    pub fn put(&mut self, name: &str, bytes: &[u8]) -> Result<(), NoMemory>
        ensures put { OnOk result (content self.new name.now ≡ Some bytes.now) }
        ensures others { OnlyHeldAt name.now (content self.old) (content self.new) }
        ensures err { OnErr result (SameHeld (content self.old) (content self.new)) }
        ensures reads { SameCounts (read_count self.old) (read_count self.new) }
        ensures writes { SameCounts (write_count self.old) (write_count self.new) }
        ensures plans { plans self.new ≡ plans self.old }
    {
        let bytes = bytes.to_vec(self.alloc)?;
        match self.files.get_mut(name) {
            Some(file) => file.bytes = bytes,
            None => {
                let key = String::from_str(self.alloc, name)?;
                let file = MemFile {
                    bytes,
                    reads: self.other_reads,
                    writes: self.other_writes,
                };
                self.files.insert(key, file)?;
            }
        }
        Ok(())
    }

    /// The bytes under the name, or `None` exactly where nothing is held there.
    pub fn get(&self, name: &str) -> Option<&[u8]>
        ensures { option_map (λ bytes. bytes.now) result ≡ content self.now name.now }
    {
        match self.files.get(name) {
            Some(file) => Some(file.bytes.as_slice()),
            None => None,
        }
    }

    /// Has the nth call of a kind fail, counted from 1 since `new` over all names. An append first
    /// adds so many bytes of its piece, or all where there are fewer. Of several entries for one
    /// call the first that was made counts. Contents and counts stay as they are.
    pub fn fail(&mut self, kind: CallKind, nth: u32, added: u32) -> Result<(), NoMemory>
        ensures ok { OnOk result (plans self.new ≡ with_plan kind (with_failing nth added) (plans self.old)) }
        ensures err { OnErr result (plans self.new ≡ plans self.old) }
        ensures held { SameHeld (content self.old) (content self.new) }
        ensures reads { SameCounts (read_count self.old) (read_count self.new) }
        ensures writes { SameCounts (write_count self.old) (write_count self.new) }
    {
        match kind {
            CallKind::Read => self.read_calls.plan(nth, added),
            CallKind::Create => self.create_calls.plan(nth, added),
            CallKind::Append => self.append_calls.plan(nth, added),
        }
    }
}

// Beside what all files promise, each method says which of its calls fail.
impl Files for MemFiles {
    ghost use Rattle.std.specs.Prelude.{◌^◌, ◌≤◌, ◌↔◌, ◌⊎◌, length, IsTrue, IfOk, IsErr, IsErrOf, IsSome, IsNone};
    ghost use Rattle.mp_outside.specs.Calls.{due, counted};
    ghost use Rattle.mp_outside.specs.Causes.{FailsOnlyIf, UnlessFailed};
    ghost use Rattle.mp_outside.specs.Contents.{ReadsAt, Creates, Appends};
    ghost use Rattle.mp_outside.specs.Seen.{OnlyReads, OnlyWrites, ReadFailed, NoReadFailed, WriteFailed, NoWriteFailed};
    ghost use Rattle.mp_outside.specs.Memory.{content, read_count, write_count, files_seen, plans, with_plan, CountsFault, FailsAsDueAt};

    ghost seen = { files_seen };

    #[tactic(auto, using(std::proofs::lemmas::Map::Text::text_keys))]
    fn read_at(&mut self, name: &str, at: u64, buf: &mut [u8]) -> Result<usize, Failed>
        requires { at ≤ 2 ^ 28 }
        ensures bound { IfOk result (λ count. count ≤ length buf.new) }
        ensures bytes { ReadsAt (content self.old name.now) at result buf.new }
        ensures fails { IsErr result ↔ (IsNone (content self.old name.now) ⊎ IsSome (due (plans self.old).reads)) }
        ensures plans { plans self.new ≡ with_plan CallKind.Read counted (plans self.old) }
        ensures counted { OnErr result (CountsFault (content self.old) name.now (read_count self.old) (read_count self.new)) }
        ensures cause { OnErr result (ReadFailed name.now (files_seen self.old) (files_seen self.new)) }
        ensures uncounted { OnOk result (NoReadFailed (files_seen self.old) (files_seen self.new)) }
        ensures only { OnlyReads (files_seen self.old) (files_seen self.new) }
    {
        let due = self.read_calls.count_call();
        match self.files.get_mut(name) {
            None => {
                self.other_reads = self.other_reads.saturating_add(1);
                Err(Failed)
            }
            Some(file) => {
                if due.is_some() {
                    file.reads = file.reads.saturating_add(1);
                    Err(Failed)
                } else {
                    Ok(copy_from(&file.bytes, at, buf))
                }
            }
        }
    }

    #[tactic(auto, using(std::proofs::lemmas::Map::Text::text_keys))]
    fn create(&mut self, name: &str) -> Result<(), OutFault>
        ensures made { Creates (content self.old name.now) (content self.new name.now) result }
        ensures fails { IsErrOf result OutFault.Failed ↔ IsSome (due (plans self.old).creates) }
        ensures plans { plans self.new ≡ with_plan CallKind.Create counted (plans self.old) }
        ensures counted { FailsOnlyIf result (CountsFault (content self.old) name.now (write_count self.old) (write_count self.new)) }
        ensures cause { FailsOnlyIf result (WriteFailed name.now (files_seen self.old) (files_seen self.new)) }
        ensures uncounted { UnlessFailed result (NoWriteFailed (files_seen self.old) (files_seen self.new)) }
        ensures only { OnlyWrites name.now (files_seen self.old) (files_seen self.new) }
    {
        let due = self.create_calls.count_call();
        match self.files.get_mut(name) {
            None => create_new(self, name, due.is_some()),
            Some(file) => {
                if due.is_some() {
                    file.writes = file.writes.saturating_add(1);
                    Err(OutFault::Failed)
                } else {
                    file.bytes = Vec::new(self.alloc);
                    Ok(())
                }
            }
        }
    }

    #[tactic(auto, using(std::proofs::lemmas::Map::Text::text_keys))]
    fn append(&mut self, name: &str, piece: &[u8]) -> Result<(), OutFault>
        requires { IsSome (content self.old name.now) }
        ensures added { Appends (content self.old name.now) (content self.new name.now) piece.now result }
        ensures fails { FailsAsDueAt (due (plans self.old).appends) (content self.old name.now) (content self.new name.now) piece.now result }
        ensures plans { plans self.new ≡ with_plan CallKind.Append counted (plans self.old) }
        ensures counted { FailsOnlyIf result (CountsFault (content self.old) name.now (write_count self.old) (write_count self.new)) }
        ensures cause { FailsOnlyIf result (WriteFailed name.now (files_seen self.old) (files_seen self.new)) }
        ensures uncounted { UnlessFailed result (NoWriteFailed (files_seen self.old) (files_seen self.new)) }
        ensures only { OnlyWrites name.now (files_seen self.old) (files_seen self.new) }
    {
        let due = self.append_calls.count_call();
        let Some(file) = self.files.get_mut(name) else {
            unreachable!();
        };
        append_to(file, piece, due)
    }
}
