// The plan that `scan` retains events by.
ghost use Rattle.std.specs.Prelude.{◌≡◌, ◌≤◌, IfErr, IfOk, length};
ghost use Rattle.multigrid.specs.Levels.{IsLevel};
ghost use Rattle.event_retrieve.specs.Plan.{KnowsNodes};
ghost use Rattle.event_retrieve.specs.Refusal.{IsRefusal};
ghost use Rattle.seq_engine.specs.Setup.{IsSetup};
ghost use Rattle.seq_engine.specs.Realisation.{level_positions, source_of};
ghost use Rattle.mps_scan.specs.Text.{TellsAlike, one_cell, scan_plan};

use event_retrieve::{LevelPlan, PlanError};
use mp_base::{Grid, NoMemory, Shape};
use seq_engine::{Setup, plan_level};
use std::alloc::Global;
use ti_scan::Eroded;

/// A plan of a level, over the eroded positions of that level and a grid of one unknown cell. What
/// is retained of an event is the same under every plan of the level. It is refused exactly where
/// the image has fewer eroded positions than `min_replicates`.
pub fn plan_of_level<'a>(
    alloc: Global,
    setup: &Setup,
    level: u8,
    eroded: &'a Eroded<'a>,
) -> Result<LevelPlan<'a>, PlanError>
    requires setup { IsSetup setup.now }
    requires level { IsLevel level }
    requires source { eroded.now ≡ source_of setup.now level }
    ensures plan { IfOk result (λ plan. plan ≡ scan_plan setup.now level) }
    ensures template { IfOk result (λ plan. length plan.source.template ≡ length setup.now.template.vectors) }
    ensures any_plan { TellsAlike setup.now level (scan_plan setup.now level) }
    ensures enough { IfOk result (λ _. setup.now.min_replicates ≤ length (level_positions setup.now level)) }
    ensures few { IfErr result (IsRefusal (length (level_positions setup.now level)) setup.now.min_replicates) }
{
    let start = unknown_cell(alloc, level)?;
    plan_level(alloc, setup, 0, level, start, eroded)
}

// A grid of one unknown cell.
fn unknown_cell(alloc: Global, level: u8) -> Result<Grid, NoMemory>
    ensures grid { IfOk result (λ grid. grid ≡ one_cell) }
    ensures nodes { IfOk result (λ grid. KnowsNodes grid level) }
{
    let shape = Shape {
        nx: 1,
        ny: 1,
        nz: 1,
    };
    Grid::unknown(alloc, shape)
}
