// The command `check`.
ghost use Rattle.std.specs.Prelude.{◌≡◌, IfErr, IfOk, None, Ok};
ghost use Rattle.mp_outside.specs.Seen.{FilesSeen};
ghost use Rattle.mps_inputs.specs.Answers.{Ends, IsRefusal, Serves, seen};
ghost use Rattle.mps_inputs.specs.Inputs.{IsInputs};
ghost use Rattle.mps_top.specs.Outcome.{check_of, outcome_for};
ghost use Rattle.mps_words.specs.declared.words.Command.TheVariants.{Check};

use crate::texts::check_text;
use mp_outside::{Files, Sink};
use mps_inputs::{Fault, Inputs, Name, judge, read_inputs, report};
use std::alloc::Global;

/// Reads and judges the inputs of a run, and tells on `out` what they are. It makes no file.
pub fn check<F: Files, O: Sink>(
    alloc: Global,
    files: &mut F,
    out: &mut O,
    parameters: &Name,
) -> Result<(), Fault>
    ensures { Serves (outcome_for (Check parameters.now)) (seen (F.seen files.old) (O.seen out.old)) (seen (F.seen files.new) (O.seen out.new)) result }
{
    let inputs = read_inputs(alloc, files, parameters)?;
    tell_inputs(alloc, out, inputs)
}

// Tells on `out` what the inputs are.
fn tell_inputs<O: Sink>(alloc: Global, out: &mut O, inputs: Inputs) -> Result<(), Fault>
    requires { IsInputs inputs }
    ensures { (files : FilesSeen) → Ends (check_of inputs) (seen files (O.seen out.old)) (seen files (O.seen out.new)) result }
{
    let text = inputs_text(alloc, inputs)?;
    report(out, &text)
}

// The text that tells what the inputs are.
fn inputs_text(alloc: Global, inputs: Inputs) -> Result<Vec<u8>, Fault>
    requires { IsInputs inputs }
    ensures text { IfOk result (λ text. check_of inputs ≡ Ok (record { output = None; out = text.items })) }
    ensures fault { IfErr result (IsRefusal (check_of inputs)) }
{
    let judged = judge(alloc, inputs)?;
    Ok(check_text(alloc, &judged)?)
}
