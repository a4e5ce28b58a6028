// What a simulation is made of, and why it may be refused.
ghost use Rattle.std.specs.Prelude.{◌≡◌};
ghost use Rattle.seq_engine.specs.Errors.{run_error_at};

use event_retrieve::PlanError;
use mp_base::{Grid, NoMemory, Shape};
use servo_fraction::Target;
use template_order::Template;

/// All that a simulation is made of: the training image and the template of level 1, the shape of
/// the grid with its hard data, and how a category is drawn. The servo is in thousandths.
#[derive(Drop)]
pub struct Setup {
    pub image: Grid,
    pub template: Template,
    pub shape: Shape,
    pub hard: Grid,
    pub cats: u8,
    pub target: Target,
    pub levels: u8,
    pub servo: u16,
    pub max_data: u8,
    pub min_replicates: u32,
    pub seed: u64,
}

/// Why there is no realisation.
#[derive(Clone, Copy, Debug, PartialEq, Eq)]
pub enum RunError {
    /// At this level the image has fewer eroded positions than the replicates that are wanted.
    TooFewPositions { level: u8, have: u32, want: u32 },
    /// Memory ran out.
    NoMemory,
}

impl From<NoMemory> for RunError {
    ghost use Rattle.std.specs.Prelude.{◌≡◌};
    ghost use Rattle.seq_engine.specs.declared.setup.RunError.TheVariants.{NoMemory as WantOfMemory};

    ghost from_gives = { λ _ e. e ≡ WantOfMemory };

    fn from(_: NoMemory) -> Self {
        RunError::NoMemory
    }
}

/// The fault of a level whose plan was refused.
pub fn fault_at(level: u8, error: PlanError) -> RunError
    ensures { result ≡ run_error_at level error }
{
    match error {
        PlanError::TooFewPositions { have, want } => RunError::TooFewPositions {
            level,
            have,
            want,
        },
        PlanError::NoMemory => RunError::NoMemory,
    }
}
