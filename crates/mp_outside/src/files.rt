// Files, as the program sees them, and the faults of their calls.
ghost use Rattle.std.specs.Prelude.{◌≡◌, ◌^◌, ◌≤◌, length, IfOk, IsTrue, IsSome, OnOk, OnErr};
ghost use Rattle.mp_outside.specs.Causes.{FailsOnlyIf, UnlessFailed};
ghost use Rattle.mp_outside.specs.Contents.{ReadsAt, Creates, Appends};
ghost use Rattle.mp_outside.specs.Seen.{FilesSeen, OnlyReads, OnlyWrites, ReadFailed, NoReadFailed, WriteFailed, NoWriteFailed};
ghost use Rattle.mp_outside.specs.declared.files.OutFault.TheVariants.{Failed as FailedFault, NoMemory as WantOfMemory};

use mp_number::NoMemory;
use std::alloc::{AllocError, AllocFailed};

/// A call of the outside failed.
#[derive(Clone, Copy, Debug, PartialEq, Eq)]
pub struct Failed;

/// Why a call of the outside, or one that makes such calls, did not do its work.
#[derive(Clone, Copy, Debug, PartialEq, Eq)]
pub enum OutFault {
    /// A call of the outside failed.
    Failed,
    /// Memory ran out.
    NoMemory,
}

impl From<Failed> for OutFault {
    ghost from_gives = { λ _ fault. fault ≡ FailedFault };

    fn from(_: Failed) -> OutFault {
        OutFault::Failed
    }
}

impl From<NoMemory> for OutFault {
    ghost from_gives = { λ _ fault. fault ≡ WantOfMemory };

    fn from(_: NoMemory) -> OutFault {
        OutFault::NoMemory
    }
}

impl From<AllocError> for OutFault {
    ghost from_gives = { λ _ fault. fault ≡ WantOfMemory };

    fn from(_: AllocError) -> OutFault {
        OutFault::NoMemory
    }
}

impl<T: Drop> From<AllocFailed<T>> for OutFault {
    ghost from_gives = { λ _ fault. fault ≡ WantOfMemory };

    fn from(_: AllocFailed<T>) -> OutFault {
        OutFault::NoMemory
    }
}

/// Files by name. For each name there is a count of the faults of reads, and one of the faults of
/// creates and appends. No count ever falls. A call answers `Failed` only where its count for the
/// name handed in is greater afterwards, or stands at `u64::MAX`, and any other answer leaves all
/// counts as they were. No call changes what another name holds.
pub trait Files {
    /// Whether they tell what they hold, this, and their counts.
    ghost seen: { Self → FilesSeen };

    /// Puts the bytes from a place on into the buffer and answers how many: at least one where
    /// there is one and the buffer isn't empty, and none at the end or past it. A name under which
    /// nothing is held fails.
    fn read_at(&mut self, name: &str, at: u64, buf: &mut [u8]) -> Result<usize, Failed>
        requires { at ≤ 2 ^ 28 }
        ensures bound { IfOk result (λ count. count ≤ length buf.new) }
        ensures bytes { IsTrue (seen self.old).tells → ReadsAt ((seen self.old).held name.now) at result buf.new }
        ensures cause { OnErr result (ReadFailed name.now (seen self.old) (seen self.new)) }
        ensures uncounted { OnOk result (NoReadFailed (seen self.old) (seen self.new)) }
        ensures only { OnlyReads (seen self.old) (seen self.new) };

    /// Leaves an empty file under the name. After an error the name holds what it held, or the
    /// empty file.
    fn create(&mut self, name: &str) -> Result<(), OutFault>
        ensures made { IsTrue (seen self.old).tells → Creates ((seen self.old).held name.now) ((seen self.new).held name.now) result }
        ensures cause { FailsOnlyIf result (WriteFailed name.now (seen self.old) (seen self.new)) }
        ensures uncounted { UnlessFailed result (NoWriteFailed (seen self.old) (seen self.new)) }
        ensures only { OnlyWrites name.now (seen self.old) (seen self.new) };

    /// Adds a piece to the file under the name. After `Failed` the first bytes of the piece may
    /// have been added, after `NoMemory` none.
    fn append(&mut self, name: &str, piece: &[u8]) -> Result<(), OutFault>
        requires { IsTrue (seen self.old).tells → IsSome ((seen self.old).held name.now) }
        ensures added { IsTrue (seen self.old).tells → Appends ((seen self.old).held name.now) ((seen self.new).held name.now) piece.now result }
        ensures cause { FailsOnlyIf result (WriteFailed name.now (seen self.old) (seen self.new)) }
        ensures uncounted { UnlessFailed result (NoWriteFailed (seen self.old) (seen self.new)) }
        ensures only { OnlyWrites name.now (seen self.old) (seen self.new) };
}
