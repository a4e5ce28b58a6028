// The command `scan`.
ghost use Rattle.std.specs.Prelude.{◌≡◌, ◌≤◌, IfErr, IfOk, None, Ok, length};
ghost use Rattle.mp_params.specs.Params.{IsParams};
ghost use Rattle.mp_outside.specs.Seen.{FilesSeen};
ghost use Rattle.multigrid.specs.Levels.{IsLevel};
ghost use Rattle.seq_engine.specs.Realisation.{level_positions};
ghost use Rattle.seq_engine.specs.Setup.{IsSetup};
ghost use Rattle.ti_scan.specs.Event.{IsEvent};
ghost use Rattle.mps_inputs.specs.Answers.{Ends, IsRefusal, Serves, seen};
ghost use Rattle.mps_inputs.specs.Inputs.{IsInputs, codes_in};
ghost use Rattle.mps_scan.specs.Outcome.{scan_of, scan_outcome, scan_tables, scan_under as scan_under_words};
ghost use Rattle.mps_scan.specs.Scanning.{IsUnfit, event_asked as event_asked_for, level_text as level_text_of, positions_in};

use crate::counting::counted_text;
use crate::fit::fitting_event;
use crate::plan::plan_of_level;
use crate::words::ScanWords;
use event_retrieve::PlanError;
use mp_base::{Codes, NoMemory};
use mp_outside::{Files, Sink};
use mp_params::Params;
use mps_inputs::{Fault, Inputs, Name, codes_of, judge, read_parameters, read_tables, report};
use multigrid::stretched;
use seq_engine::Setup;
use std::alloc::Global;
use std::thread::Threads;
use template_order::Template;
use ti_scan::{Eroded, Event};

/// Reads and judges the inputs of a run, and tells on `out` how often an event has replicates at a
/// level. Words that don't fit the parameters are refused before the image is read. It makes no
/// file.
pub fn scan<R: Threads + Sync, F: Files, O: Sink>(
    rt: &R,
    alloc: Global,
    files: &mut F,
    out: &mut O,
    parameters: &Name,
    words: &ScanWords,
) -> Result<(), Fault>
    requires { IsLevel words.now.level }
    ensures { Serves (scan_outcome parameters.now words.now) (seen (F.seen files.old) (O.seen out.old)) (seen (F.seen files.new) (O.seen out.new)) result }
{
    let parameters = read_parameters(alloc, files, parameters)?;
    scan_under(rt, alloc, files, out, parameters, words)
}

// Serves the words under accepted parameters.
fn scan_under<R: Threads + Sync, F: Files, O: Sink>(
    rt: &R,
    alloc: Global,
    files: &mut F,
    out: &mut O,
    parameters: Params,
    words: &ScanWords,
) -> Result<(), Fault>
    requires level { IsLevel words.now.level }
    ensures params { IsParams parameters }
    ensures serves { Serves (scan_under_words words.now parameters) (seen (F.seen files.old) (O.seen out.old)) (seen (F.seen files.new) (O.seen out.new)) result }
{
    let codes = codes_of(&parameters);
    let event = event_asked(alloc, &parameters, &codes, words)?;
    scan_event(
        rt,
        alloc,
        files,
        out,
        parameters,
        codes,
        words.level,
        &event,
    )
}

// The event that the words ask for, or the fault that they don't fit.
fn event_asked(
    alloc: Global,
    parameters: &Params,
    codes: &Codes,
    words: &ScanWords,
) -> Result<Event, Fault>
    requires { codes.now ≡ codes_in parameters.now }
    ensures params { IsParams parameters.now }
    ensures event { IfOk result (λ event. event_asked_for parameters.now words.now ≡ Ok event) }
    ensures within { IfOk result (IsEvent (positions_in parameters.now)) }
    ensures level { IfOk result (λ event. words.now.level ≤ parameters.now.levels) }
    ensures fault { IfErr result (IsUnfit parameters.now words.now) }
{
    let template = Template::new(alloc, parameters.radii, parameters.template)?;
    match fitting_event(words, parameters.levels, template.len(), &codes.categories) {
        Some(event) => Ok(event),
        None => Err(Fault::Usage),
    }
}

// Reads the tables, and tells of the event.
fn scan_event<R: Threads + Sync, F: Files, O: Sink>(
    rt: &R,
    alloc: Global,
    files: &mut F,
    out: &mut O,
    parameters: Params,
    codes: Codes,
    level: u8,
    event: &Event,
) -> Result<(), Fault>
    requires codes { codes ≡ codes_in parameters }
    requires some { 1 ≤ level }
    requires most { level ≤ parameters.levels }
    requires event { IsEvent (positions_in parameters) event.now }
    ensures { Serves (scan_tables level parameters event.now) (seen (F.seen files.old) (O.seen out.old)) (seen (F.seen files.new) (O.seen out.new)) result }
{
    let inputs = read_tables(alloc, files, parameters, codes)?;
    tell_event(rt, alloc, out, inputs, level, event)
}

// Tells of the event on `out`.
fn tell_event<R: Threads + Sync, O: Sink>(
    rt: &R,
    alloc: Global,
    out: &mut O,
    inputs: Inputs,
    level: u8,
    event: &Event,
) -> Result<(), Fault>
    requires inputs { IsInputs inputs }
    requires some { 1 ≤ level }
    requires most { level ≤ inputs.parameters.levels }
    requires event { IsEvent (positions_in inputs.parameters) event.now }
    ensures { (files : FilesSeen) → Ends (scan_of level event.now inputs) (seen files (O.seen out.old)) (seen files (O.seen out.new)) result }
{
    let text = event_text(rt, alloc, inputs, level, event)?;
    report(out, &text)
}

// The text that tells of the event, where the image has enough eroded positions at all levels.
fn event_text<R: Threads + Sync>(
    rt: &R,
    alloc: Global,
    inputs: Inputs,
    level: u8,
    event: &Event,
) -> Result<Vec<u8>, Fault>
    requires inputs { IsInputs inputs }
    requires some { 1 ≤ level }
    requires most { level ≤ inputs.parameters.levels }
    requires event { IsEvent (positions_in inputs.parameters) event.now }
    ensures text { IfOk result (λ text. scan_of level event.now inputs ≡ Ok (record { output = None; out = text.items })) }
    ensures fault { IfErr result (IsRefusal (scan_of level event.now inputs)) }
{
    let judged = judge(alloc, inputs)?;
    Ok(level_text(rt, alloc, &judged.parameters, &judged.setup, level, event)?)
}

// The text of an event at a level that has enough eroded positions.
fn level_text<R: Threads + Sync>(
    rt: &R,
    alloc: Global,
    parameters: &Params,
    setup: &Setup,
    level: u8,
    event: &Event,
) -> Result<Vec<u8>, NoMemory>
    requires setup { IsSetup setup.now }
    requires level { IsLevel level }
    requires enough { setup.now.min_replicates ≤ length (level_positions setup.now level) }
    requires event { IsEvent (length setup.now.template.vectors) event.now }
    ensures { IfOk result (λ text. text.items ≡ level_text_of parameters.now.store setup.now level event.now) }
{
    let template = stretched(alloc, &setup.template, level)?;
    let eroded = Eroded::new(alloc, &setup.image, &template, setup.cats)?;
    match plan_of_level(alloc, setup, level, &eroded) {
        Ok(plan) => counted_text(rt, alloc, parameters.store, &plan, event),
        Err(PlanError::NoMemory) => Err(NoMemory),
        Err(PlanError::TooFewPositions { .. }) => unreachable!(),
    }
}
