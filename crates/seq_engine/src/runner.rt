// Runners of levels.
ghost use Rattle.std.specs.Prelude.{◌≡◌, ◌<◌, All, IfOk, OnOk};
ghost use Rattle.ti_scan.specs.Event.{StandsFor};
ghost use Rattle.event_retrieve.specs.Plan.{Plan};
ghost use Rattle.event_retrieve.specs.Sequential.{sequential};
ghost use Rattle.seq_engine.specs.Store.{store_counts, store_reach};

use crate::level::run_level;
use crate::stores::{Store, StoreKind, Stores};
use event_retrieve::LevelPlan;
use mp_base::{Entry, NoMemory};
use std::alloc::Global;
use std::marker::Model;
use std::thread::Threads;

/// Simulates levels, each as the sequential simulation defines it.
pub trait LevelRunner {
    /// What the runner needs so that it can run.
    ghost ready: { Self → Type 0 };

    /// The runner before, the plan of a level, and the runner after it.
    ghost ran: { Self → Plan → Self → Type 0 };

    /// The entries of the level, in the order of the path.
    fn run(&mut self, alloc: Global, plan: &LevelPlan<'_>) -> Result<Vec<Entry>, NoMemory>
        requires { ready self.old }
        ensures log { IfOk result (λ log. log.items ≡ sequential plan.now) }
        ensures cats { IfOk result (λ log. All (λ e. e.cat < plan.now.source.cats) log.items) }
        ensures ready { ready self.new }
        ensures ran { OnOk result (ran self.old plan.now self.new) };
}

/// Simulates levels on one thread. To a caller it is the way in which it counts.
#[derive(Drop)]
pub struct OneThread<'a, R: Threads + Sync> {
    rt: &'a R,
    stores: Stores,
}

impl<'a, R: Threads + Sync> Model for OneThread<'a, R> {
    ghost use Rattle.seq_engine.specs.declared.stores.StoreKind.{StoreKind};

    ghost Value = { StoreKind };

    ghost view = { λ runner. runner.stores };
}

impl<'a, R: Threads + Sync> OneThread<'a, R> {
    /// A runner that counts so. Building a store may use the runtime's threads.
    pub fn new(rt: &'a R, kind: StoreKind) -> OneThread<'a, R>
        ensures { result ≡ kind }
    {
        OneThread {
            rt,
            stores: Stores::new(kind),
        }
    }

    /// The same for one realisation: it keeps no store beyond its level.
    pub fn for_one_realisation(rt: &'a R, kind: StoreKind) -> OneThread<'a, R>
        ensures { result ≡ kind }
    {
        OneThread {
            rt,
            stores: Stores::for_one_realisation(kind),
        }
    }
}

impl<'a, R: Threads + Sync> LevelRunner for OneThread<'a, R> {
    ghost use Rattle.std.specs.Prelude.{◌≡◌};
    ghost use denote.Param.Send.{IsSync};

    // Threads can share the runtime, which those that build a store do.
    ghost ready = { λ _. IsSync R.row };

    // A level leaves nothing behind.
    ghost ran = { λ before _ now. now ≡ before };

    fn run(&mut self, alloc: Global, plan: &LevelPlan<'_>) -> Result<Vec<Entry>, NoMemory> {
        let simulate = |alloc: Global, plan: &LevelPlan<'_>, store: Store<'_>|
            requires { StandsFor store_counts store_reach store plan.now.source }
            ensures log { IfOk result (λ log. log.items ≡ sequential plan.now) }
            ensures cats { IfOk result (λ log. All (λ e. e.cat < plan.now.source.cats) log.items) }
        { run_level(alloc, plan, &store) };
        self.stores.run(self.rt, alloc, plan, &simulate)
    }
}
