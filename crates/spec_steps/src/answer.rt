// What steps are answered.
use commit_board::{Claim, Keep, Settle};
use event_retrieve::Retained;
use mp_base::Cat;

/// What a step is answered.
#[derive(Drop)]
pub enum Answer {
    Claimed(Claim),
    /// The front that is shown; the worker looks now.
    Seen { front: u32 },
    /// The front that is shown is beyond the worker's node, which it gives up.
    Late { front: u32 },
    Known { position: u8, cat: Cat },
    /// The cell is outside, comes later, or isn't known yet.
    Unknown { position: u8 },
    Counted(Retained),
    Offered { index: u32, keep: Keep },
    Settled(Settle),
    Recounted { index: u32, retained: Retained },
    Shown { front: u32 },
    /// The step can't be taken now, and nothing has changed.
    Skip,
}
