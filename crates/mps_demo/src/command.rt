// The command `demo`.
ghost use Rattle.std.specs.Prelude.{◌≡◌, IfOk, length};
ghost use Rattle.mp_outside.specs.Seen.{FilesSeen};
ghost use Rattle.seq_engine.specs.Setup.{IsSetup};
ghost use Rattle.mps_inputs.specs.Answers.{Ends, Serves, seen};
ghost use Rattle.mps_inputs.specs.Inputs.{IsInputs, codes_in};
ghost use Rattle.mps_run.specs.Texts.{counts_of};
ghost use Rattle.mps_demo.specs.Outcome.{EndsReported, demo_outcome, summary_of};

use crate::inputs::draw_inputs;
use mp_base::{Counts, NoMemory};
use mp_outside::Sink;
use mps_inputs::{Fault, Inputs, Judged, judge};
use mps_run::{facts_of, tell_report};
use seq_engine::{OneThread, Setup, StoreKind, run_realisation};
use std::alloc::Global;
use std::thread::Threads;

/// Draws a training image of channels and wells by a seed, simulates a realisation from them on one
/// thread, counted so, and tells its report on `out`: it is the same however replicates are counted. It
/// reads and makes no file.
pub fn demo<R: Threads + Sync, O: Sink>(
    rt: &R,
    alloc: Global,
    out: &mut O,
    seed: u32,
    kind: StoreKind,
) -> Result<(), Fault>
    ensures { (files : FilesSeen) → Serves (λ _. demo_outcome seed) (seen files (O.seen out.old)) (seen files (O.seen out.new)) result }
{
    let inputs = draw_inputs(alloc, seed)?;
    summarise(rt, alloc, out, inputs, kind)
}

// Judges inputs that ask for one realisation, simulates it and tells the report.
fn summarise<R: Threads + Sync, O: Sink>(
    rt: &R,
    alloc: Global,
    out: &mut O,
    inputs: Inputs,
    kind: StoreKind,
) -> Result<(), Fault>
    requires inputs { IsInputs inputs }
    requires one { inputs.parameters.realisations ≡ 1 }
    ensures { (files : FilesSeen) → Ends (summary_of inputs) (seen files (O.seen out.old)) (seen files (O.seen out.new)) result }
{
    let judged = judge(alloc, inputs)?;
    simulate(rt, alloc, out, judged, kind)
}

// The same of judged inputs.
fn simulate<R: Threads + Sync, O: Sink>(
    rt: &R,
    alloc: Global,
    out: &mut O,
    judged: Judged,
    kind: StoreKind,
) -> Result<(), Fault>
    requires setup { IsSetup judged.setup }
    requires one { judged.parameters.realisations ≡ 1 }
    requires codes { judged.codes ≡ codes_in judged.parameters }
    ensures { (files : FilesSeen) → EndsReported judged (seen files (O.seen out.old)) (seen files (O.seen out.new)) result }
{
    let counts = count_realisation(rt, alloc, &judged.setup, kind)?;
    tell_report(alloc, out, &facts_of(judged, counts))
}

// How many cells of the realisation have each category.
fn count_realisation<R: Threads + Sync>(
    rt: &R,
    alloc: Global,
    setup: &Setup,
    kind: StoreKind,
) -> Result<Vec<Counts>, NoMemory>
    requires { IsSetup setup.now }
    ensures { IfOk result (λ counts. counts.items ≡ counts_of setup.now 1) }
{
    let mut runner = OneThread::new(rt, kind);
    // The positions were judged, so memory alone can be wanting.
    let Ok(realisation) = run_realisation(alloc, setup, 0, &mut runner) else {
        return Err(NoMemory);
    };
    let mut counts = Vec::new(alloc);
    counts.push(realisation.counts(setup.cats))?;
    Ok(counts)
}
