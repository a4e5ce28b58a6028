// A realisation.
ghost use Rattle.std.specs.Prelude.{◌≡◌, ◌⊎◌, ◌≤◌, All, IfErr, IfOk, IsSome, None, OnOk, Some, length, map};
ghost use Rattle.std.specs.List.{range_with_len};
ghost use Rattle.mp_base.specs.Grid.{IsBelow, cells_of, field};
ghost use Rattle.hard_data.specs.Start.{datum_or_value, values_after};
ghost use Rattle.multigrid.specs.Levels.{IsLevel};
ghost use Rattle.event_retrieve.specs.Plan.{KnowsNodes};
ghost use Rattle.event_retrieve.specs.Sequential.{sequential};
ghost use Rattle.seq_engine.specs.Errors.{IsRefusalAt};
ghost use Rattle.seq_engine.specs.Runs.{RanThrough};
ghost use Rattle.seq_engine.specs.Setup.{IsSetup};
ghost use Rattle.seq_engine.specs.Realisation.{level_plan, level_positions, plan_over, plans_of, realised, short_level, source_of, too_few};

use crate::plan::plan_level;
use crate::runner::LevelRunner;
use crate::setup::{RunError, Setup, fault_at};
use event_retrieve::LevelPlan;
use hard_data::{Start, relocate, take_away};
use mp_base::{CellId, Grid};
use multigrid::stretched;
use std::alloc::Global;
use ti_scan::Eroded;

/// A realisation, counted from 0: level after level from the coarsest to the finest, each over the
/// hard data and over the values of the coarser levels (the multiple grids of Strebelle 2002). Every
/// cell is known. It is refused exactly where a level has fewer eroded positions than
/// `min_replicates`, and names the coarsest such level.
pub fn run_realisation<R: LevelRunner>(
    alloc: Global,
    setup: &Setup,
    realisation: u32,
    runner: &mut R,
) -> Result<Grid, RunError>
    requires setup { IsSetup setup.now }
    requires realisation { realisation ≤ 999 }
    requires ready { R.ready runner.old }
    ensures grid { IfOk result (λ g. g ≡ realised setup.now realisation) }
    ensures known { IfOk result (λ g. All IsSome g.cells) }
    ensures below { IfOk result (λ g. All (IsBelow setup.now.cats) g.cells) }
    ensures ran { OnOk result (RanThrough R.ran runner.old (plans_of setup.now realisation) runner.new) }
    ensures ready { R.ready runner.new }
    ensures enough { IfOk result (λ _. short_level setup.now ≡ None) }
    ensures few { IfErr result (λ e. (e ≡ RunError.NoMemory) ⊎ (too_few setup.now ≡ Some e)) }
{
    let mut values = Grid::unknown(alloc, setup.shape)?;
    for coarser in 0..setup.levels {
        let level = setup.levels - coarser;
        simulate_level(alloc, setup, realisation, level, &mut values, runner)?;
    }
    Ok(with_hard_data(&setup.hard, values))
}

// Simulates a level over the values of the coarser ones, and adds its values to them.
fn simulate_level<R: LevelRunner>(
    alloc: Global,
    setup: &Setup,
    realisation: u32,
    level: u8,
    values: &mut Grid,
    runner: &mut R,
) -> Result<(), RunError>
    requires setup { IsSetup setup.now }
    requires some { 1 ≤ level }
    requires most { level ≤ setup.now.levels }
    requires sides { values.old.sides ≡ setup.now.shape }
    requires below { All (IsBelow setup.now.cats) values.old.cells }
    requires ready { R.ready runner.old }
    ensures values { OnOk result (values.new ≡ values_after values.old (sequential (plan_over setup.now realisation level values.old))) }
    ensures below { OnOk result (All (IsBelow setup.now.cats) values.new.cells) }
    ensures ran { OnOk result (R.ran runner.old (plan_over setup.now realisation level values.old) runner.new) }
    ensures ready { R.ready runner.new }
    ensures enough { OnOk result (setup.now.min_replicates ≤ length (level_positions setup.now level)) }
    ensures few { IfErr result
        (IsRefusalAt level (length (level_positions setup.now level)) setup.now.min_replicates) }
{
    let template = stretched(alloc, &setup.template, level)?;
    let eroded = Eroded::new(alloc, &setup.image, &template, setup.cats)?;
    let Start { grid, moves } = relocate(alloc, &setup.hard, values, level)?;
    let plan = plan_at(alloc, setup, realisation, level, grid, &eroded)?;
    let _ = plan.level();
    let log = runner.run(alloc, &plan)?;
    take_away(moves, &log, values);
    Ok(())
}

// The plan of a level, or why there is no realisation.
fn plan_at<'a>(
    alloc: Global,
    setup: &Setup,
    realisation: u32,
    level: u8,
    start: Grid,
    eroded: &'a Eroded<'a>,
) -> Result<LevelPlan<'a>, RunError>
    requires setup { IsSetup setup.now }
    requires level { IsLevel level }
    requires nodes { KnowsNodes start level }
    requires below { All (IsBelow setup.now.cats) start.cells }
    requires source { eroded.now ≡ source_of setup.now level }
    ensures plan { IfOk result (λ plan. plan ≡ level_plan setup.now realisation level start) }
    ensures enough { IfOk result
        (λ _. setup.now.min_replicates ≤ length (level_positions setup.now level)) }
    ensures few { IfErr result
        (IsRefusalAt level (length (level_positions setup.now level)) setup.now.min_replicates) }
{
    plan_level(alloc, setup, realisation, level, start, eroded).map_err(|error| fault_at(
        level, error,
    ))
}

// The values with each hard datum in its own cell.
fn with_hard_data(hard: &Grid, mut values: Grid) -> Grid
    requires { values.sides ≡ hard.now.sides }
    ensures { result ≡ field hard.now.sides (map (datum_or_value hard.now values) (range_with_len 0 (cells_of hard.now.sides))) }
{
    for number in 0..values.shape().cells() {
        let cell = CellId(number);
        let datum = hard.get(cell);
        if datum.is_some() {
            values.set(cell, datum);
        }
    }
    values
}
