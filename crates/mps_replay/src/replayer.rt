// The runner of a replay.
ghost use Rattle.std.specs.Prelude.{◌≡◌, ◌≤◌, None};
ghost use Rattle.mps_replay.specs.Trace.{replaying};

use crate::kept::Trace;
use crate::level::replay_level;
use event_retrieve::LevelPlan;
use mp_base::{Entry, NoMemory};
use seq_engine::{LevelRunner, OneThread, StoreKind};
use spec_steps::Schedule;
use std::alloc::Global;
use std::marker::Model;
use std::thread::Threads;

/// Simulates levels: that of a schedule by its steps, of which it keeps the trace, and all others on
/// one thread.
#[derive(Drop)]
pub struct Replayer<'a, R: Threads + Sync> {
    rt: &'a R,
    others: OneThread<'a, R>,
    kind: StoreKind,
    schedule: &'a Schedule,
    window: u16,
    trace: Option<Trace>,
}

impl<'a, R: Threads + Sync> Model for Replayer<'a, R> {
    ghost use Rattle.std.specs.Prelude.{◌≤◌};
    ghost use Rattle.mps_replay.specs.Trace.{Replaying, replaying};

    ghost Value = { Replaying };

    ghost view = { λ r. replaying r.schedule.now r.window r.trace };

    ghost invariant = { λ r. (1 ≤ r.schedule.now.workers) × (r.schedule.now.workers ≤ 64) × (1 ≤ r.window) × (r.window ≤ 256) };
}

impl<'a, R: Threads + Sync> Replayer<'a, R> {
    /// A runner of this schedule that has kept nothing yet. At most `window` nodes are claimed ahead of
    /// the front. Building a store may use the runtime's threads.
    pub fn new(rt: &'a R, kind: StoreKind, schedule: &'a Schedule, window: u16) -> Replayer<'a, R>
        requires workers { (1 ≤ schedule.now.workers) × (schedule.now.workers ≤ 64) }
        requires window { (1 ≤ window) × (window ≤ 256) }
        ensures { result ≡ replaying schedule.now window None }
    {
        Replayer {
            rt,
            others: OneThread::new(rt, kind),
            kind,
            schedule,
            window,
            trace: None,
        }
    }

    /// What was kept of the schedule's level.
    pub fn into_trace(self) -> Option<Trace>
        ensures { result ≡ self.entry.trace }
    {
        self.trace
    }
}

impl<'a, R: Threads + Sync> LevelRunner for Replayer<'a, R> {
    ghost use Rattle.mps_replay.specs.Trace.{Ran};
    ghost use denote.Param.Send.{IsSync};

    // Threads can share the runtime, which those that build a store do.
    ghost ready = { λ _. IsSync R.row };

    ghost ran = { Ran };

    fn run(&mut self, alloc: Global, plan: &LevelPlan<'_>) -> Result<Vec<Entry>, NoMemory> {
        if plan.level() != self.schedule.level {
            return self.others.run(alloc, plan);
        }
        let (trace, log) = replay_level(
            self.rt,
            alloc,
            plan,
            self.kind,
            self.schedule,
            self.window,
        )?;
        self.trace = Some(trace);
        Ok(log)
    }
}
