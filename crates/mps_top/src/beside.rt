// The command `run` with many workers.
ghost use Rattle.std.specs.Prelude.{◌≡◌, ◌<◌, ◌≤◌, All, IfOk};
ghost use Rattle.ti_scan.specs.Event.{StandsFor};
ghost use Rattle.event_retrieve.specs.Sequential.{sequential};
ghost use Rattle.seq_engine.specs.Store.{store_counts, store_reach};
ghost use Rattle.mps_inputs.specs.Answers.{Ends, Serves, seen};
ghost use Rattle.mps_inputs.specs.Inputs.{IsInputs};
ghost use Rattle.mps_run.specs.Outcome.{run_of};
ghost use Rattle.mps_top.specs.Outcome.{run_outcome};
ghost use denote.Param.Send.{IsSync};

use event_retrieve::LevelPlan;
use mp_base::{Entry, NoMemory};
use mp_outside::{Files, Sink};
use mps_inputs::{Fault, Inputs, Name, judge, kind_for, read_inputs};
use mps_run::write_run;
use seq_engine::{Store, Stores};
use spec_run::{Workers, run_level_by};
use std::alloc::Global;
use std::sync::Wait;
use std::thread::Threads;
use worker_gate::Gate;

/// Reads and judges the inputs of a run, and then runs them with so many workers, each of which passes
/// the gate. It writes what one thread writes.
pub fn run_beside<R: Threads + Wait + Sync, F: Files, O: Sink, G: Gate>(
    rt: &R,
    alloc: Global,
    files: &mut F,
    out: &mut O,
    parameters: &Name,
    workers: u8,
    gate: &G,
) -> Result<(), Fault>
    requires { (1 ≤ workers) × (workers ≤ 64) }
    ensures { Serves (run_outcome parameters.now) (seen (F.seen files.old) (O.seen out.old)) (seen (F.seen files.new) (O.seen out.new)) result }
{
    let inputs = read_inputs(alloc, files, parameters)?;
    run_inputs_beside(rt, alloc, files, out, inputs, workers, gate)
}

// Judges accepted inputs. What runs their levels is made behind that, by the parameters, with the
// stores of all levels built side by side.
fn run_inputs_beside<R: Threads + Wait + Sync, F: Files, O: Sink, G: Gate>(
    rt: &R,
    alloc: Global,
    files: &mut F,
    out: &mut O,
    inputs: Inputs,
    workers: u8,
    gate: &G,
) -> Result<(), Fault>
    requires inputs { IsInputs inputs }
    requires workers { (1 ≤ workers) × (workers ≤ 64) }
    ensures { Ends (run_of inputs) (seen (F.seen files.old) (O.seen out.old)) (seen (F.seen files.new) (O.seen out.new)) result }
{
    let judged = judge(alloc, inputs)?;
    let mut stores = Stores::new(kind_for(&judged.parameters));
    stores.prepare(rt, alloc, &judged.setup, workers);
    let window = judged.parameters.window;
    let simulate = |alloc: Global, plan: &LevelPlan<'_>, store: Store<'_>| -> Result<
        Vec<Entry>,
        NoMemory,
    >
        requires threads { IsSync R.row × IsSync G.row }
        requires workers { (1 ≤ workers) × (workers ≤ 64) }
        requires window { (1 ≤ window) × (window ≤ 256) }
        requires store { StandsFor store_counts store_reach store plan.now.source }
        ensures log { IfOk result (λ log. log.items ≡ sequential plan.now) }
        ensures cats { IfOk result (λ log. All (λ e. e.cat < plan.now.source.cats) log.items) }
    { run_level_by(rt, alloc, plan, &store, gate, workers, window) };
    let mut runner = Workers::new(rt, stores, simulate);
    write_run(alloc, files, out, judged, &mut runner)
}
