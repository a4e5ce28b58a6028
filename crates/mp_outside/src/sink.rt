// Sinks, as the program sees them.
ghost use Rattle.std.specs.Prelude.{◌≡◌, ◌≤◌, IsTrue};
ghost use Rattle.mp_outside.specs.Causes.{FailsOnlyIf, UnlessFailed};
ghost use Rattle.mp_outside.specs.Contents.{Adds};
ghost use Rattle.mp_outside.specs.Seen.{SinkSeen, SinkFailed, SinkDidNotFail};

use crate::files::OutFault;

/// Where a text goes that is no file, such as a standard stream. A sink may tell what was written.
/// Its count of faults never falls. A write answers `Failed` only where the count is greater
/// afterwards, or stands at `u64::MAX`, and any other answer leaves it as it was.
pub trait Sink {
    /// Whether it tells what was written, this, and its count.
    ghost seen: { Self → SinkSeen };

    /// Adds a piece. After `Failed` its first bytes may have been added, after `NoMemory` none.
    fn write(&mut self, piece: &[u8]) -> Result<(), OutFault>
        ensures added { IsTrue (seen self.old).tells → Adds (seen self.old).written (seen self.new).written piece.now result }
        ensures tells { (seen self.new).tells ≡ (seen self.old).tells }
        ensures cause { FailsOnlyIf result (SinkFailed (seen self.old) (seen self.new)) }
        ensures uncounted { UnlessFailed result (SinkDidNotFail (seen self.old) (seen self.new)) }
        ensures later { (seen self.old).faults ≤ (seen self.new).faults };
}
