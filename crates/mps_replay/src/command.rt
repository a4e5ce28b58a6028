// The command `replay`.
ghost use Rattle.std.specs.Prelude.{◌≡◌, IfOk};
ghost use Rattle.mp_outside.specs.Seen.{FilesSeen};
ghost use Rattle.spec_steps.specs.Schedule.{IsSchedule};
ghost use Rattle.mps_inputs.specs.Answers.{Serves, seen};
ghost use Rattle.mps_inputs.specs.Inputs.{IsInputs};
ghost use Rattle.mps_replay.specs.Outcome.{replay_of, replay_outcome, replay_text};
ghost use Rattle.mps_replay.specs.Judged.{CanReplay, EndsJudged, ServesJudged};

use crate::replayer::Replayer;
use crate::schedule::read_schedule_file;
use mp_base::NoMemory;
use mp_outside::{Files, Sink};
use mps_inputs::{Fault, Inputs, Judged, Name, judge, kind_for, read_inputs, report};
use seq_engine::run_realisation;
use spec_steps::Schedule;
use std::alloc::Global;
use std::thread::Threads;
use trace_out::push_trace;

/// Reads and judges the inputs of a run and then a schedule, simulates the schedule's realisation, of
/// which the schedule's level is run by its steps, and tells on `out` what each step was answered and
/// what came of it. It makes no file.
pub fn replay<R: Threads + Sync, F: Files, O: Sink>(
    rt: &R,
    alloc: Global,
    files: &mut F,
    out: &mut O,
    parameters: &Name,
    schedule: &Name,
) -> Result<(), Fault>
    ensures { Serves (replay_outcome parameters.now schedule.now) (seen (F.seen files.old) (O.seen out.old)) (seen (F.seen files.new) (O.seen out.new)) result }
{
    let inputs = read_inputs(alloc, files, parameters)?;
    replay_inputs(rt, alloc, files, out, inputs, schedule)
}

// Judges accepted inputs, and then reads the schedule.
fn replay_inputs<R: Threads + Sync, F: Files, O: Sink>(
    rt: &R,
    alloc: Global,
    files: &mut F,
    out: &mut O,
    inputs: Inputs,
    schedule: &Name,
) -> Result<(), Fault>
    requires { IsInputs inputs }
    ensures { Serves (replay_of schedule.now inputs) (seen (F.seen files.old) (O.seen out.old)) (seen (F.seen files.new) (O.seen out.new)) result }
{
    let judged = judge(alloc, inputs)?;
    replay_judged(rt, alloc, files, out, &judged, schedule)
}

// Reads the schedule for judged inputs, and replays it.
fn replay_judged<R: Threads + Sync, F: Files, O: Sink>(
    rt: &R,
    alloc: Global,
    files: &mut F,
    out: &mut O,
    judged: &Judged,
    schedule: &Name,
) -> Result<(), Fault>
    requires { CanReplay judged.now }
    ensures { ServesJudged schedule.now judged.now (seen (F.seen files.old) (O.seen out.old)) (seen (F.seen files.new) (O.seen out.new)) result }
{
    let schedule = read_schedule_file(alloc, files, schedule, &judged.parameters)?;
    tell_trace(rt, alloc, out, judged, &schedule)
}

// Tells on `out` what came of a schedule.
fn tell_trace<R: Threads + Sync, O: Sink>(
    rt: &R,
    alloc: Global,
    out: &mut O,
    judged: &Judged,
    schedule: &Schedule,
) -> Result<(), Fault>
    requires judged { CanReplay judged.now }
    requires schedule { IsSchedule judged.now.parameters.realisations judged.now.parameters.levels schedule.now }
    ensures { (files : FilesSeen) → EndsJudged schedule.now judged.now (seen files (O.seen out.old)) (seen files (O.seen out.new)) result }
{
    let Ok(text) = trace_text(rt, alloc, judged, schedule) else {
        return Err(Fault::OutOfMemory);
    };
    report(out, &text)
}

// Simulates the schedule's realisation, its level by the steps: the text of the trace.
fn trace_text<R: Threads + Sync>(
    rt: &R,
    alloc: Global,
    judged: &Judged,
    schedule: &Schedule,
) -> Result<Vec<u8>, NoMemory>
    requires judged { CanReplay judged.now }
    requires schedule { IsSchedule judged.now.parameters.realisations judged.now.parameters.levels schedule.now }
    ensures { IfOk result (λ text. text.items ≡ replay_text judged.now.parameters judged.now.setup schedule.now) }
{
    let parameters = &judged.parameters;
    let mut replayer = Replayer::new(rt, kind_for(parameters), schedule, parameters.window);
    // The positions were judged, so memory alone can be wanting.
    let Ok(grid) = run_realisation(alloc, &judged.setup, schedule.realisation, &mut replayer) else {
        return Err(NoMemory);
    };
    let Some(trace) = replayer.into_trace() else {
        unreachable!()
    };
    let mut text = Vec::new(alloc);
    push_trace(
        &mut text,
        &judged.codes,
        schedule,
        trace.answers.as_slice(),
        trace.log,
        &grid,
    )?;
    Ok(text)
}
