// The top calls.
ghost use Rattle.std.specs.Prelude.{◌≡◌, ◌⊎◌, ℕ, List, None, Err, false};
ghost use Rattle.mp_outside.specs.NoFault.{content, sink_bytes};
ghost use Rattle.mp_outside.specs.Seen.{ReadFailed, SinkFailed, WriteFailed};
ghost use Rattle.mps_inputs.specs.Answers.{Ends, IsAnswer, IsDone, IsTold, IsUsage, Serves, seen};
ghost use Rattle.mps_inputs.specs.Inputs.{IsInputs};
ghost use Rattle.mps_inputs.specs.Status.{status_of, status_of_fault};
ghost use Rattle.mps_inputs.specs.Stores.{kind_of};
ghost use Rattle.mps_run.specs.Outcome.{run_of};
ghost use Rattle.mps_words.specs.Words.{IsInRange, command_of as command_of_words, names_a_command, texts};
ghost use Rattle.mps_top.specs.Outcome.{outcome_for, outcome_of, run_outcome};

use crate::beside::run_beside;
use crate::check::check;
use mp_outside::{Files, NoFaultFiles, NoFaultSink, Sink};
use mp_params::Params;
use mps_demo::demo;
use mps_inputs::{
    Fault, Inputs, Name, fault_line, fault_status, judge, kind_for, read_inputs, status,
};
use mps_replay::replay;
use mps_run::write_run;
use mps_scan::scan;
use mps_words::{Command, command_of};
use seq_engine::{OneThread, StoreKind};
use std::alloc::Global;
use std::sync::Wait;
use std::thread::Threads;
use worker_gate::Gate;

/// Serves the command that the words give, `run` with as many workers as they say, and answers the
/// exit status, by the clauses of [`answer_alone`]: how many workers there are changes neither the
/// status nor a byte of what is written. Each worker passes the gate. It may wait for other workers,
/// so it isn't promised to return.
pub fn answer<R: Threads + Wait + Sync, F: Files, O: Sink, E: Sink, G: Gate>(
    rt: &R,
    alloc: Global,
    words: &[String],
    files: &mut F,
    out: &mut O,
    err: &mut E,
    gate: &G,
) -> u8
    ensures answer { IsAnswer (outcome_of (texts words.now)) (F.seen files.old) (O.seen out.old) (E.seen err.old) (F.seen files.new) (O.seen out.new) (E.seen err.new) result }
    ensures usage { result ≡ 1 → IsUsage (outcome_of (texts words.now)) (F.seen files.old) }
    ensures no_command { command_of_words (texts words.now) ≡ None → (result ≡ 1) ⊎ (result ≡ 8) }
    ensures no_name { names_a_command (texts words.now) ≡ false → result ≡ 1 }
    ensures read_cause { result ≡ 3 → (name : List ℕ) × ReadFailed name (F.seen files.old) (F.seen files.new) }
    ensures write_cause { result ≡ 4 → (name : List ℕ) × WriteFailed name (F.seen files.old) (F.seen files.new) }
    ensures report_cause { result ≡ 9 → SinkFailed (O.seen out.old) (O.seen out.new) }
{
    let answer = serve_beside(rt, alloc, words, files, out, gate);
    if let Err(fault) = &answer {
        tell(fault, err);
    }
    status(&answer)
}

/// Serves the command that the words give on one thread, however many workers they ask for, and
/// answers the exit status. It waits for nobody and returns. The status is the status of the
/// command's outcome: of its first refusal, or 0 with exactly its text in the output file and its text
/// on `out`. Only where a read, a write or a write to `out` failed in this call it may be 3, 4 or 9,
/// and 8 wherever memory ran out. No file but the command's output is changed. A fault's line is added
/// to `err`: the whole line, or a front of it where that write failed, or nothing for want of memory.
pub fn answer_alone<R: Threads + Sync, F: Files, O: Sink, E: Sink>(
    rt: &R,
    alloc: Global,
    words: &[String],
    files: &mut F,
    out: &mut O,
    err: &mut E,
) -> u8
    ensures answer { IsAnswer (outcome_of (texts words.now)) (F.seen files.old) (O.seen out.old) (E.seen err.old) (F.seen files.new) (O.seen out.new) (E.seen err.new) result }
    ensures usage { result ≡ 1 → IsUsage (outcome_of (texts words.now)) (F.seen files.old) }
    ensures no_command { command_of_words (texts words.now) ≡ None → (result ≡ 1) ⊎ (result ≡ 8) }
    ensures no_name { names_a_command (texts words.now) ≡ false → result ≡ 1 }
    ensures read_cause { result ≡ 3 → (name : List ℕ) × ReadFailed name (F.seen files.old) (F.seen files.new) }
    ensures write_cause { result ≡ 4 → (name : List ℕ) × WriteFailed name (F.seen files.old) (F.seen files.new) }
    ensures report_cause { result ≡ 9 → SinkFailed (O.seen out.old) (O.seen out.new) }
{
    let answer = serve(rt, alloc, words, files, out);
    if let Err(fault) = &answer {
        tell(fault, err);
    }
    status(&answer)
}

/// The same over files and sinks that never fail: the command's outcome, or want of memory, and on
/// status 0 exactly its texts.
pub fn answer_in_memory<R: Threads + Sync>(
    rt: &R,
    alloc: Global,
    words: &[String],
    files: &mut NoFaultFiles,
    out: &mut NoFaultSink,
    err: &mut NoFaultSink,
) -> u8
    ensures status { (result ≡ 8) ⊎ (result ≡ status_of (outcome_of (texts words.now) (content files.old))) }
    ensures done { result ≡ 0 → IsDone (outcome_of (texts words.now)) (content files.old) (content files.new) (sink_bytes out.old) (sink_bytes out.new) }
{
    answer_alone(rt, alloc, words, files, out, err)
}

// Serves the command that the words are, `run` with as many workers as they say.
fn serve_beside<R: Threads + Wait + Sync, F: Files, O: Sink, G: Gate>(
    rt: &R,
    alloc: Global,
    words: &[String],
    files: &mut F,
    out: &mut O,
    gate: &G,
) -> Result<(), Fault>
    ensures no_command { command_of_words (texts words.now) ≡ None → (result ≡ Err Fault.Usage) ⊎ (result ≡ Err Fault.OutOfMemory) }
    ensures no_name { names_a_command (texts words.now) ≡ false → result ≡ Err Fault.Usage }
    ensures serves { Serves (outcome_of (texts words.now)) (seen (F.seen files.old) (O.seen out.old)) (seen (F.seen files.new) (O.seen out.new)) result }
{
    match command_of(alloc, words)? {
        Some(command) => serve_command_beside(rt, alloc, &command, files, out, gate),
        None => Err(Fault::Usage),
    }
}

// Serves a command, `run` with its workers.
fn serve_command_beside<R: Threads + Wait + Sync, F: Files, O: Sink, G: Gate>(
    rt: &R,
    alloc: Global,
    command: &Command,
    files: &mut F,
    out: &mut O,
    gate: &G,
) -> Result<(), Fault>
    requires { IsInRange command.now }
    ensures { Serves (outcome_for command.now) (seen (F.seen files.old) (O.seen out.old)) (seen (F.seen files.new) (O.seen out.new)) result }
{
    match command {
        Command::Run {
            parameters,
            workers,
        } if *workers > 1 => run_beside(rt, alloc, files, out, parameters, *workers, gate),
        _ => serve_command(rt, alloc, command, files, out),
    }
}

// Serves the command that the words are, on one thread.
fn serve<R: Threads + Sync, F: Files, O: Sink>(
    rt: &R,
    alloc: Global,
    words: &[String],
    files: &mut F,
    out: &mut O,
) -> Result<(), Fault>
    ensures no_command { command_of_words (texts words.now) ≡ None → (result ≡ Err Fault.Usage) ⊎ (result ≡ Err Fault.OutOfMemory) }
    ensures no_name { names_a_command (texts words.now) ≡ false → result ≡ Err Fault.Usage }
    ensures serves { Serves (outcome_of (texts words.now)) (seen (F.seen files.old) (O.seen out.old)) (seen (F.seen files.new) (O.seen out.new)) result }
{
    match command_of(alloc, words)? {
        Some(command) => serve_command(rt, alloc, &command, files, out),
        None => Err(Fault::Usage),
    }
}

// Serves a command on one thread.
fn serve_command<R: Threads + Sync, F: Files, O: Sink>(
    rt: &R,
    alloc: Global,
    command: &Command,
    files: &mut F,
    out: &mut O,
) -> Result<(), Fault>
    requires { IsInRange command.now }
    ensures { Serves (outcome_for command.now) (seen (F.seen files.old) (O.seen out.old)) (seen (F.seen files.new) (O.seen out.new)) result }
{
    match command {
        Command::Run { parameters, .. } => run(rt, alloc, files, out, parameters),
        Command::Check { parameters } => check(alloc, files, out, parameters),
        Command::Scan { parameters, words } => scan(rt, alloc, files, out, parameters, words),
        Command::Replay {
            parameters,
            schedule,
        } => replay(rt, alloc, files, out, parameters, schedule),
        Command::Demo { seed, by_list } => demo(rt, alloc, out, *seed, demo_kind(*by_list)),
    }
}

// How `demo` counts replicates.
fn demo_kind(by_list: bool) -> StoreKind {
    if by_list {
        StoreKind::List
    } else {
        StoreKind::Tree
    }
}

// Reads and judges the inputs of a run, and then runs them.
fn run<R: Threads + Sync, F: Files, O: Sink>(
    rt: &R,
    alloc: Global,
    files: &mut F,
    out: &mut O,
    parameters: &Name,
) -> Result<(), Fault>
    ensures { Serves (run_outcome parameters.now) (seen (F.seen files.old) (O.seen out.old)) (seen (F.seen files.new) (O.seen out.new)) result }
{
    let inputs = read_inputs(alloc, files, parameters)?;
    run_inputs(rt, alloc, files, out, inputs)
}

// Judges accepted inputs. What runs their levels is made behind that, by the parameters.
fn run_inputs<R: Threads + Sync, F: Files, O: Sink>(
    rt: &R,
    alloc: Global,
    files: &mut F,
    out: &mut O,
    inputs: Inputs,
) -> Result<(), Fault>
    requires { IsInputs inputs }
    ensures { Ends (run_of inputs) (seen (F.seen files.old) (O.seen out.old)) (seen (F.seen files.new) (O.seen out.new)) result }
{
    let judged = judge(alloc, inputs)?;
    let mut runner = runner_for(rt, &judged.parameters);
    write_run(alloc, files, out, judged, &mut runner)
}

// What runs the levels on one thread. Of one realisation no store is wanted twice.
fn runner_for<'a, R: Threads + Sync>(rt: &'a R, parameters: &Params) -> OneThread<'a, R>
    ensures { result ≡ kind_of parameters.now.store }
{
    let kind = kind_for(parameters);
    if parameters.realisations == 1 {
        OneThread::for_one_realisation(rt, kind)
    } else {
        OneThread::new(rt, kind)
    }
}

/// Tells a fault that came before any command could be served, and answers its status.
pub fn refuse<E: Sink>(fault: &Fault, err: &mut E) -> u8
    ensures status { result ≡ status_of_fault fault.now }
    ensures told { IsTold (E.seen err.old) (E.seen err.new) (Err fault.now) }
{
    tell(fault, err);
    fault_status(fault)
}

// Tells a fault. Where that fails the status stays as it is, so the answer of the write is left.
fn tell<E: Sink>(fault: &Fault, err: &mut E)
    ensures { IsTold (E.seen err.old) (E.seen err.new) (Err fault.now) }
{
    let _ = err.write(fault_line(fault).as_str().as_bytes());
}
