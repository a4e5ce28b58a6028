// A runner of levels by a call, as that of workers.
ghost use Rattle.std.specs.Prelude.{◌≡◌, ◌<◌, All, IfOk};

use event_retrieve::LevelPlan;
use mp_base::{Entry, NoMemory};
use seq_engine::{LevelRunner, Store, Stores};
use std::alloc::Global;
use std::marker::Model;
use std::thread::Threads;

/// Runs each level by a call, over stores that are built once for each level and kept from one
/// realisation to the next. The call is made by who starts the workers: it runs them, by
/// `run_level_by`.
#[derive(Drop)]
pub struct Workers<
    'a,
    R: Threads + Sync,
    F: Fn(Global, &LevelPlan<'_>, Store<'_>) -> Result<Vec<Entry>, NoMemory>,
> {
    rt: &'a R,
    stores: Stores,
    simulate: F,
}

impl<
    'a,
    R: Threads + Sync,
    F: Fn(Global, &LevelPlan<'_>, Store<'_>) -> Result<Vec<Entry>, NoMemory>,
> Workers<'a, R, F> {
    /// A runner over these stores, which simulates each level by this call. Building a store may use
    /// the runtime's threads.
    pub fn new(rt: &'a R, stores: Stores, simulate: F) -> Workers<'a, R, F>
        ensures stores { result.stores ≡ stores }
        ensures simulate { result.simulate ≡ simulate }
    {
        Workers {
            rt,
            stores,
            simulate,
        }
    }
}

impl<
    'a,
    R: Threads + Sync,
    F: Fn(Global, &LevelPlan<'_>, Store<'_>) -> Result<Vec<Entry>, NoMemory>,
> LevelRunner for Workers<'a, R, F> {
    ghost use Rattle.std.specs.Prelude.{◌≡◌, ◌<◌, All, IfOk};
    ghost use Rattle.mp_base.specs.declared.cell.Entry.{Entry};
    ghost use Rattle.ti_scan.specs.Event.{StandsFor};
    ghost use Rattle.event_retrieve.specs.Sequential.{sequential};
    ghost use Rattle.seq_engine.specs.Store.{store_counts, store_reach};
    ghost use denote.Param.Send.{IsSync};

    // Threads can share the runtime, and the call may be made with every store of the plan's source and
    // gives the sequential log.
    ghost ready = { λ w. IsSync R.row × ((alloc : _) (plan : _) (store : _) → StandsFor store_counts store_reach store plan.now.source → F.pre w.simulate alloc plan store)
        × ((alloc : _) (plan : _) (store : _) (log : _) → F.post w.simulate alloc plan store log → IfOk log (λ log. log.items ≡ sequential plan.now))
        × ((alloc : _) (plan : _) (store : _) (log : _) → F.post w.simulate alloc plan store log → IfOk log (λ log. All (λ (e : Entry). e.cat < plan.now.source.cats) log.items)) };

    // A level leaves nothing behind.
    ghost ran = { λ before _ now. now ≡ before };

    fn run(&mut self, alloc: Global, plan: &LevelPlan<'_>) -> Result<Vec<Entry>, NoMemory> {
        self.stores.run(self.rt, alloc, plan, &self.simulate)
    }
}
