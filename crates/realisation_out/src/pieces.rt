// A text that goes into a file in pieces.
ghost use Rattle.std.specs.Prelude.{◌≡◌, ◌++◌, ◌+◌, ◌<◌, ◌≤◌, ℕ, List, [], None, IfOk, IfSome, IsNone, IsSome, IsTrue, OnOk, OnSome, length};
ghost use Rattle.std.specs.Result.{result_err};
ghost use Rattle.mp_outside.specs.Causes.{FailsOnlyIf, UnlessFailed};
ghost use Rattle.mp_outside.specs.Seen.{NoWriteFailed, OnlyWrites, WriteFailed};
ghost use Rattle.realisation_out.specs.Pieces.{HasEnded, HasPut, Puts, begun};

use mp_base::NoMemory;
use mp_outside::{Files, OutFault};
use std::alloc::Global;
use std::marker::Model;

// How many bytes a piece has.
const PIECE: usize = 8192;

/// A text that goes into a file in pieces of 8,192 bytes. Bytes are kept until they fill a piece; the
/// last piece may be shorter, and none is empty. The file was made and is empty before the first bytes
/// are put, and nobody else writes to it until the end.
#[derive(Drop)]
pub struct Pieces {
    name: String,
    kept: Vec<u8>,
    fault: Option<OutFault>,
}

impl Model for Pieces {
    ghost use Rattle.std.specs.Prelude.{◌<◌, length, string_bytes};
    ghost use Rattle.realisation_out.specs.Pieces.{PiecesSeen};

    ghost Value = { PiecesSeen };

    ghost view = { λ p. record { name = string_bytes p.name; kept = p.kept.items; fault = p.fault } };

    ghost invariant = { λ p. length p.kept.items < 8192 };
}

impl Pieces {
    /// Nothing put yet into the file under this name.
    pub fn new(alloc: Global, name: &str) -> Result<Pieces, NoMemory>
        ensures { IfOk result (λ pieces. pieces ≡ begun name.now) }
    {
        Ok(Pieces {
            name: String::from_str(alloc, name)?,
            kept: Vec::new(alloc),
            fault: None,
        })
    }

    /// Puts bytes behind those that were put before, and appends each piece that is full. After an error
    /// the file holds a front of what was put, nothing more is appended, and each further call answers
    /// that error again.
    pub fn put<F: Files>(&mut self, files: &mut F, bytes: &[u8]) -> Result<(), OutFault>
        requires { IsTrue (F.seen files.old).tells → IsSome ((F.seen files.old).held self.old.name) }
        ensures put { (text : List ℕ) → HasPut self.old (F.seen files.old) text → HasPut self.new (F.seen files.new) (text ++ bytes.now) }
        ensures told { self.new.fault ≡ result_err result }
        ensures name { self.new.name ≡ self.old.name }
        ensures held { IsTrue (F.seen files.new).tells → IsSome ((F.seen files.new).held self.old.name) }

        // No piece is appended before it is full, and none after an error.
        ensures waits { length self.old.kept + length bytes.now < 8192 → files.new ≡ files.old }
        ensures again { IfSome self.old.fault (λ fault. result ≡ Err fault) }
        ensures still { OnSome self.old.fault (files.new ≡ files.old) }

        ensures cause { IsNone self.old.fault → FailsOnlyIf result (WriteFailed self.old.name (F.seen files.old) (F.seen files.new)) }
        ensures uncounted { UnlessFailed result (NoWriteFailed (F.seen files.old) (F.seen files.new)) }
        ensures only { OnlyWrites self.old.name (F.seen files.old) (F.seen files.new) }
    {
        if let Some(fault) = self.fault {
            return Err(fault);
        }
        let put = put_parts(&mut self.kept, files, self.name.as_str(), bytes);
        self.fault = put.err();
        put
    }

    /// Appends the last piece, which is shorter than the others, and none where nothing is left. Then the
    /// file holds all that was put. After an error it holds a front of that; an error of an earlier call
    /// is answered again.
    pub fn end<F: Files>(self, files: &mut F) -> Result<(), OutFault>
        requires { IsTrue (F.seen files.old).tells → IsSome ((F.seen files.old).held self.name) }
        ensures ended { (text : List ℕ) → HasPut self (F.seen files.old) text → HasEnded self.name (F.seen files.new) text result }
        ensures no_empty_piece { self.kept ≡ [] → files.new ≡ files.old }
        ensures again { IfSome self.fault (λ fault. result ≡ Err fault) }
        ensures still { OnSome self.fault (files.new ≡ files.old) }
        ensures cause { IsNone self.fault → FailsOnlyIf result (WriteFailed self.name (F.seen files.old) (F.seen files.new)) }
        ensures uncounted { UnlessFailed result (NoWriteFailed (F.seen files.old) (F.seen files.new)) }
        ensures only { OnlyWrites self.name (F.seen files.old) (F.seen files.new) }
    {
        if let Some(fault) = self.fault {
            return Err(fault);
        }
        if self.kept.is_empty() {
            return Ok(());
        }
        files.append(self.name.as_str(), self.kept.as_slice())
    }
}

// Puts bytes behind those that are kept, as many at a time as fit into a piece.
fn put_parts<F: Files>(
    kept: &mut Vec<u8>,
    files: &mut F,
    name: &str,
    bytes: &[u8],
) -> Result<(), OutFault>
    requires short { length kept.old.items < 8192 }
    requires held { IsTrue (F.seen files.old).tells → IsSome ((F.seen files.old).held name.now) }
    ensures put { Puts name.now (F.seen files.old) (F.seen files.new) kept.old.items kept.new.items bytes.now result }
    ensures short { length kept.new.items < 8192 }
    ensures held { IsTrue (F.seen files.old).tells → IsSome ((F.seen files.new).held name.now) }
    ensures waits { length kept.old.items + length bytes.now < 8192 → files.new ≡ files.old }
    ensures cause { FailsOnlyIf result (WriteFailed name.now (F.seen files.old) (F.seen files.new)) }
    ensures uncounted { UnlessFailed result (NoWriteFailed (F.seen files.old) (F.seen files.new)) }
    ensures only { OnlyWrites name.now (F.seen files.old) (F.seen files.new) }
{
    let mut at = 0;
    while at < bytes.len() {
        let count = (PIECE - kept.len()).min(bytes.len() - at);
        put_part(kept, files, name, &bytes[at..at + count])?;
        at += count;
    }
    Ok(())
}

// Puts a part that fits into the piece that is kept, and appends the piece once it is full.
fn put_part<F: Files>(
    kept: &mut Vec<u8>,
    files: &mut F,
    name: &str,
    part: &[u8],
) -> Result<(), OutFault>
    requires short { length kept.old.items < 8192 }
    requires fits { length kept.old.items + length part.now ≤ 8192 }
    requires held { IsTrue (F.seen files.old).tells → IsSome ((F.seen files.old).held name.now) }
    ensures put { Puts name.now (F.seen files.old) (F.seen files.new) kept.old.items kept.new.items part.now result }
    ensures short { length kept.new.items < 8192 }
    ensures held { IsTrue (F.seen files.old).tells → IsSome ((F.seen files.new).held name.now) }
    ensures waits { length kept.old.items + length part.now < 8192 → files.new ≡ files.old }
    ensures keeps { length kept.old.items + length part.now < 8192 → OnOk result (kept.new.items ≡ kept.old.items ++ part.now) }
    ensures cause { FailsOnlyIf result (WriteFailed name.now (F.seen files.old) (F.seen files.new)) }
    ensures uncounted { UnlessFailed result (NoWriteFailed (F.seen files.old) (F.seen files.new)) }
    ensures only { OnlyWrites name.now (F.seen files.old) (F.seen files.new) }
{
    kept.extend_from_slice(part)?;
    if kept.len() < PIECE {
        return Ok(());
    }
    let appended = files.append(name, kept.as_slice());
    kept.clear();
    appended
}
