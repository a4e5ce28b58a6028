// Steps of the machine.
/// A step: of a worker, by its number, counted from 1, or of the board.
#[derive(Clone, Copy, Debug, PartialEq, Eq)]
pub enum Step {
    /// An idle worker claims a path node.
    Claim(u8),
    /// A worker that has claimed reads the front that is shown.
    Front(u8),
    /// A worker that looks reads the cell at its next template position.
    Look(u8),
    /// A worker that has looked at all positions counts the replicates of what it has seen.
    Count(u8),
    /// A worker that has counted offers that.
    Offer(u8),
    /// The board commits the front by its kept offer, where that isn't stale.
    Settle,
    /// The board counts the front's node again.
    Force,
    /// The front is shown to the workers.
    Show,
}

impl Step {
    ghost use Rattle.std.specs.Prelude.{◌≡◌};
    ghost use Rattle.spec_steps.specs.Steps.{board_steps, step_name, step_worker, worker_steps};

    /// The word that the step's line begins with.
    pub fn name(self) -> &'static str
        ensures { result.now ≡ step_name self }
    {
        match self {
            Step::Claim(_) => "claim",
            Step::Front(_) => "front",
            Step::Look(_) => "look",
            Step::Count(_) => "count",
            Step::Offer(_) => "offer",
            Step::Settle => "settle",
            Step::Force => "force",
            Step::Show => "show",
        }
    }

    /// The number of the worker whose step it is, or nothing where it is the board's.
    pub fn worker(self) -> Option<u8>
        ensures { result ≡ step_worker self }
    {
        match self {
            Step::Claim(worker) => Some(worker),
            Step::Front(worker) => Some(worker),
            Step::Look(worker) => Some(worker),
            Step::Count(worker) => Some(worker),
            Step::Offer(worker) => Some(worker),
            Step::Settle => None,
            Step::Force => None,
            Step::Show => None,
        }
    }

    // The steps that a worker may take.
    pub(crate) fn of_worker(worker: u8) -> [Step; 5]
        ensures { result ≡ worker_steps worker }
    {
        [
            Step::Claim(worker),
            Step::Front(worker),
            Step::Look(worker),
            Step::Count(worker),
            Step::Offer(worker),
        ]
    }

    // The steps of the board.
    pub(crate) fn of_board() -> [Step; 3]
        ensures { result ≡ board_steps }
    {
        [Step::Settle, Step::Force, Step::Show]
    }
}
