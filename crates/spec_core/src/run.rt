// Runs of the machine.
ghost use Rattle.std.specs.Prelude.{◌≡◌, ◌≤◌, IfOk, OnOk, length};
ghost use Rattle.ti_scan.specs.Event.{StandsFor};
ghost use Rattle.event_retrieve.specs.Sequential.{log_of};
ghost use Rattle.spec_steps.specs.Answers.{NamesCategories};
ghost use Rattle.spec_core.specs.Run.{after_all, answers_of};
ghost use Rattle.spec_core.specs.World.{FitsPlan, first_machine};

use crate::world::World;
use event_retrieve::LevelPlan;
use mp_base::NoMemory;
use spec_steps::{Answer, Schedule, Step};
use std::alloc::Global;
use ti_scan::CountStore;

/// Takes the steps of a schedule one after another, from the beginning: what they are answered, and
/// the world after them, whose log is a front of the sequential log.
pub fn run_schedule<S: CountStore>(
    alloc: Global,
    plan: &LevelPlan<'_>,
    store: &S,
    schedule: &Schedule,
    window: u16,
) -> Result<(Vec<Answer>, World), NoMemory>
    requires workers { (1 ≤ schedule.now.workers) × (schedule.now.workers ≤ 64) }
    requires window { (1 ≤ window) × (window ≤ 256) }
    requires store { StandsFor S.gives S.reaches store.now plan.now.source }
    ensures answers { let first = first_machine plan.now schedule.now.workers window in
        IfOk result (λ run. run.0.items ≡ answers_of plan.now first schedule.now.steps) }
    ensures world { let first = first_machine plan.now schedule.now.workers window in
        IfOk result (λ run. run.1 ≡ after_all plan.now first schedule.now.steps) }
    ensures fits { IfOk result (λ run. FitsPlan plan.now run.1) }
    ensures front { IfOk result (λ run. run.1.board.log ≡ log_of plan.now (length run.1.board.log)) }
    ensures count { IfOk result (λ run. length run.0.items ≡ length schedule.now.steps) }
    ensures named { IfOk result (λ run. NamesCategories plan.now.source.cats run.0.items) }
{
    let mut world = World::new(alloc, plan, schedule.workers, window)?;
    let answers = run_steps(alloc, &mut world, plan, store, schedule.steps.as_slice())?;
    Ok((answers, world))
}

// Takes steps one after another, and gives their answers.
fn run_steps<S: CountStore>(
    alloc: Global,
    world: &mut World,
    plan: &LevelPlan<'_>,
    store: &S,
    steps: &[Step],
) -> Result<Vec<Answer>, NoMemory>
    requires fits { FitsPlan plan.now world.old }
    requires store { StandsFor S.gives S.reaches store.now plan.now.source }
    ensures answers { IfOk result (λ answers. answers.items ≡ answers_of plan.now world.old steps.now) }
    ensures world { OnOk result (world.new ≡ after_all plan.now world.old steps.now) }
    ensures fits { FitsPlan plan.now world.new }
    ensures count { IfOk result (λ answers. length answers.items ≡ length steps.now) }
    ensures named { IfOk result (λ answers. NamesCategories plan.now.source.cats answers.items) }
{
    let mut answers = Vec::with_capacity(alloc, steps.len())?;
    for step in steps {
        answers.push(world.step(plan, store, *step))?;
    }
    Ok(answers)
}
