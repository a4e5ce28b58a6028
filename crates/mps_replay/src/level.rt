// A level that is run by the steps of a schedule.
ghost use Rattle.std.specs.Prelude.{◌≡◌, ◌<◌, ◌≤◌, All, IfOk};
ghost use Rattle.event_retrieve.specs.Sequential.{sequential};
ghost use Rattle.ti_scan.specs.Event.{StandsFor};
ghost use Rattle.mps_replay.specs.Trace.{IsTold, trace_of};

use crate::kept::{Answers, Trace};
use event_retrieve::LevelPlan;
use impala_list::EventList;
use mp_base::{Entry, NoMemory};
use search_tree::SearchTree;
use seq_engine::StoreKind;
use spec_core::run_schedule;
use spec_steps::Schedule;
use std::alloc::Global;
use std::thread::Threads;
use ti_scan::CountStore;
use trace_out::LogLength;

/// Takes the steps of a schedule on a plan, over a store of this kind, and then commits what is left:
/// the trace of the steps, and the entries of the level. At most `window` nodes are claimed ahead of the
/// front.
pub fn replay_level<R: Threads + Sync>(
    rt: &R,
    alloc: Global,
    plan: &LevelPlan<'_>,
    kind: StoreKind,
    schedule: &Schedule,
    window: u16,
) -> Result<(Trace, Vec<Entry>), NoMemory>
    requires workers { (1 ≤ schedule.now.workers) × (schedule.now.workers ≤ 64) }
    requires window { (1 ≤ window) × (window ≤ 256) }
    ensures trace { IfOk result (λ level. level.0 ≡ trace_of plan.now schedule.now window) }
    ensures told { IfOk result (λ level. IsTold plan.now.source.cats schedule.now level.0) }
    ensures log { IfOk result (λ level. level.1.items ≡ sequential plan.now) }
    ensures cats { IfOk result (λ level. All (λ e. e.cat < plan.now.source.cats) level.1.items) }
{
    let eroded = plan.eroded();
    match kind {
        StoreKind::Scan => take_steps(alloc, plan, eroded, schedule, window),
        StoreKind::Tree => {
            let tree = SearchTree::build(alloc, eroded)?;
            take_steps(alloc, plan, &tree, schedule, window)
        }
        StoreKind::List => {
            let list = EventList::build(rt, alloc, eroded)?;
            take_steps(alloc, plan, &list, schedule, window)
        }
    }
}

// The same by a store that is there.
fn take_steps<S: CountStore>(
    alloc: Global,
    plan: &LevelPlan<'_>,
    store: &S,
    schedule: &Schedule,
    window: u16,
) -> Result<(Trace, Vec<Entry>), NoMemory>
    requires workers { (1 ≤ schedule.now.workers) × (schedule.now.workers ≤ 64) }
    requires window { (1 ≤ window) × (window ≤ 256) }
    requires store { StandsFor S.gives S.reaches store.now plan.now.source }
    ensures trace { IfOk result (λ level. level.0 ≡ trace_of plan.now schedule.now window) }
    ensures told { IfOk result (λ level. IsTold plan.now.source.cats schedule.now level.0) }
    ensures log { IfOk result (λ level. level.1.items ≡ sequential plan.now) }
    ensures cats { IfOk result (λ level. All (λ e. e.cat < plan.now.source.cats) level.1.items) }
{
    let (answers, world) = run_schedule(alloc, plan, store, schedule, window)?;
    let log = LogLength {
        entries: world.front(),
        nodes: plan.length(),
    };
    let trace = Trace {
        answers: Answers::new(answers),
        log,
    };
    Ok((trace, world.finish(plan, store)))
}
