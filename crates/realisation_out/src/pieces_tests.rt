// How long the pieces of a text are, and what is left of it where one of them fails.
ghost use Rattle.std.specs.Prelude.{IfOk, IsSome, IsTrue, codes};
ghost use Rattle.mp_outside.specs.Memory.{content};

use crate::Pieces;
use mp_outside::{CallKind, Failed, Files, MemFiles, OutFault};
use std::alloc::Global;

// Files that tell nothing of what they hold, and note how long each piece is.
#[derive(Drop)]
struct Lengths {
    noted: Vec<usize>,
}

impl Files for Lengths {
    ghost use Rattle.std.specs.Prelude.{false, None};

    ghost seen = { λ _. record { tells = false; held = λ _. None; reads = λ _. 0; writes = λ _. 0 } };

    fn read_at(&mut self, _: &str, _: u64, _: &mut [u8]) -> Result<usize, Failed> {
        Ok(0)
    }

    fn create(&mut self, _: &str) -> Result<(), OutFault> {
        Ok(())
    }

    fn append(&mut self, _: &str, piece: &[u8]) -> Result<(), OutFault> {
        self.noted.push(piece.len())?;
        Ok(())
    }
}

// Puts as many bytes as each number says, one number after another.
fn put_all(
    alloc: Global,
    files: &mut Lengths,
    pieces: &mut Pieces,
    counts: &[usize],
) -> Result<(), OutFault> {
    for count in counts {
        let bytes = vec![in alloc; b'1'; *count]?;
        pieces.put(files, &bytes)?;
    }
    Ok(())
}

// The lengths of the pieces in which so many bytes go out.
fn piece_lengths(alloc: Global, counts: &[usize]) -> Result<Vec<usize>, OutFault> {
    let mut files = Lengths {
        noted: Vec::new(alloc),
    };
    let mut pieces = Pieces::new(alloc, "out.dat")?;
    put_all(alloc, &mut files, &mut pieces, counts)?;
    pieces.end(&mut files)?;
    Ok(files.noted)
}

#[test]
fn pieces_are_full_and_the_last_one_is_what_is_left(rt: HostRuntime) {
    for (counts, wanted) in [
        ([0, 0, 0].as_slice(), [].as_slice()),
        ([3, 4, 0].as_slice(), [7].as_slice()),
        ([8191, 1, 0].as_slice(), [8192].as_slice()),
        ([49, 10000, 10000].as_slice(), [8192, 8192, 3665].as_slice()),
        ([20049].as_slice(), [8192, 8192, 3665].as_slice()),
    ] {
        let noted = piece_lengths(rt.alloc(), counts).expect(&rt, "memory is left");
        assert_eq!(rt; noted.as_slice(), wanted);
    }
}

// Puts these bytes, then one more, and ends. Says which of the three succeeded.
fn puts_and_end<F: Files>(files: &mut F, mut pieces: Pieces, bytes: &[u8]) -> [bool; 3]
    requires { IsTrue (F.seen files.old).tells → IsSome ((F.seen files.old).held pieces.name) }
{
    let first = pieces.put(files, bytes).is_ok();
    let second = pieces.put(files, b"1").is_ok();
    let ended = pieces.end(files).is_ok();
    [first, second, ended]
}

// An empty file, of which one append fails after so many bytes of its piece.
fn failing_files(alloc: Global, nth: u32, added: u32) -> Result<MemFiles, OutFault>
    ensures { IfOk result (λ files. IsSome (content files (codes "out.dat"))) }
{
    let mut files = MemFiles::new(alloc);
    files.put("out.dat", b"")?;
    files.fail(CallKind::Append, nth, added)?;
    Ok(files)
}

// Puts 20,049 bytes into such a file. Says what succeeded, and how many bytes the file holds.
fn failing(alloc: Global, nth: u32, added: u32) -> Result<([bool; 3], usize), OutFault> {
    let mut files = failing_files(alloc, nth, added)?;
    let pieces = Pieces::new(alloc, "out.dat")?;
    let bytes = vec![in alloc; b'1'; 20_048]?;
    let succeeded = puts_and_end(&mut files, pieces, &bytes);
    let held = files.get("out.dat").map_or(0, |held| held.len());
    Ok((succeeded, held))
}

#[test]
fn after_an_error_the_file_holds_a_front_and_nothing_more_comes(rt: HostRuntime) {
    for (nth, added, wanted) in [
        (1, 5, ([false, false, false], 5)),
        (2, 9000, ([false, false, false], 16_384)),
        (3, 100, ([true, true, false], 16_484)),
        (4, 0, ([true, true, true], 20_049)),
    ] {
        let got = failing(rt.alloc(), nth, added).expect(&rt, "memory is left");
        assert!(rt; got == wanted);
    }
}
