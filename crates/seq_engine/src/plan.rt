// The plan of a level.
ghost use Rattle.std.specs.Prelude.{◌≡◌, ◌≤◌, All, IfErr, IfOk, length};
ghost use Rattle.mp_base.specs.Grid.{IsBelow};
ghost use Rattle.multigrid.specs.Levels.{IsLevel};
ghost use Rattle.event_retrieve.specs.Plan.{KnowsNodes};
ghost use Rattle.event_retrieve.specs.Refusal.{IsRefusal};
ghost use Rattle.seq_engine.specs.Setup.{IsSetup};
ghost use Rattle.seq_engine.specs.Realisation.{level_plan, level_positions, source_of};

use crate::setup::Setup;
use event_retrieve::{LevelPlan, PlanError};
use mp_base::Grid;
use path_stream::{Words, stream_of};
use std::alloc::Global;
use ti_scan::Eroded;

/// The plan of a level of a realisation, over what is known at the start of the level, with the
/// eroded positions of the level. It is refused exactly where these are fewer than
/// `min_replicates`.
pub fn plan_level<'a>(
    alloc: Global,
    setup: &Setup,
    realisation: u32,
    level: u8,
    start: Grid,
    eroded: &'a Eroded<'a>,
) -> Result<LevelPlan<'a>, PlanError>
    requires setup { IsSetup setup.now }
    requires level { IsLevel level }
    requires nodes { KnowsNodes start level }
    requires below { All (IsBelow setup.now.cats) start.cells }
    requires source { eroded.now ≡ source_of setup.now level }
    ensures plan { IfOk result (λ plan. plan ≡ level_plan setup.now realisation level start) }
    ensures enough { IfOk result
        (λ _. setup.now.min_replicates ≤ length (level_positions setup.now level)) }
    ensures few { IfErr result
        (IsRefusal (length (level_positions setup.now level)) setup.now.min_replicates) }
{
    LevelPlan::new(
        alloc,
        level,
        eroded,
        start,
        Words::new(setup.seed, stream_of(realisation, level)),
        setup.target.copy(),
        setup.servo,
        setup.min_replicates,
        setup.max_data,
    )
}
