// The trace of a schedule.
ghost use Rattle.std.specs.Prelude.{◌≡◌, ◌++◌, All, IfOk, IsSome, OnErr, OnOk, length};
ghost use Rattle.mp_base.specs.Grid.{IsBelow};
ghost use Rattle.spec_steps.specs.Answers.{NamesCategories, category_in};
ghost use Rattle.trace_out.specs.Trace.{log_line, realisation_line, step_line, step_text, steps_text, trace_text as text_of_trace};

use crate::answers::{commits_in, push_answer, push_told};
use mp_base::{Codes, Grid, NoMemory, push_whole};
use realisation_out::push_rows;
use spec_steps::{Answer, Schedule, Step};
use std::alloc::Global;

/// How many entries the board's log had before the board was finished, and how many nodes the path
/// has.
#[derive(Clone, Copy, Debug, PartialEq, Eq)]
pub struct LogLength {
    pub entries: u32,
    pub nodes: u32,
}

/// Appends the trace of a schedule: a line for each step, with the step's words and what it was
/// answered; how far the board came by them; the realisation's number, and the code of each of its
/// cells in rising cell number, a line each. The answers are those of the steps, in order. Without
/// memory for it the vector stays as it was.
pub fn push_trace(
    to: &mut Vec<u8>,
    codes: &Codes,
    schedule: &Schedule,
    answers: &[Answer],
    log: LogLength,
    grid: &Grid,
) -> Result<(), NoMemory>
    requires as_many { length answers.now ≡ length schedule.now.steps }
    requires named { NamesCategories (length codes.now.categories) answers.now }
    requires known { All IsSome grid.now.cells }
    requires below { All (IsBelow (length codes.now.categories)) grid.now.cells }
    ensures text { OnOk result (to.new.items ≡ to.old.items ++ text_of_trace codes.now.categories schedule.now answers.now log grid.now.cells) }
    ensures err { OnErr result (to.new.items ≡ to.old.items) }
{
    let text = trace_text(*to.allocator(), codes, schedule, answers, log, grid)?;
    to.extend_from_slice(text.as_slice())?;
    Ok(())
}

// The whole text, line by line.
#[tactic(auto, unfolding(crate::specs::Trace::trace_text))]
fn trace_text(
    alloc: Global,
    codes: &Codes,
    schedule: &Schedule,
    answers: &[Answer],
    log: LogLength,
    grid: &Grid,
) -> Result<Vec<u8>, NoMemory>
    requires as_many { length answers.now ≡ length schedule.now.steps }
    requires named { NamesCategories (length codes.now.categories) answers.now }
    requires known { All IsSome grid.now.cells }
    requires below { All (IsBelow (length codes.now.categories)) grid.now.cells }
    ensures { IfOk result (λ text. text.items ≡ text_of_trace codes.now.categories schedule.now answers.now log grid.now.cells) }
{
    let mut text = Vec::new(alloc);
    push_steps(
        &mut text,
        schedule.steps.as_slice(),
        answers,
        codes.categories.as_slice(),
    )?;
    push_log(&mut text, log)?;
    push_realisation(&mut text, schedule.realisation)?;
    push_rows(&mut text, grid, codes)?;
    Ok(text)
}

// The lines of steps with their answers.
fn push_steps(
    to: &mut Vec<u8>,
    steps: &[Step],
    answers: &[Answer],
    codes: &[i32],
) -> Result<(), NoMemory>
    requires as_many { length answers.now ≡ length steps.now }
    requires named { NamesCategories (length codes.now) answers.now }
    ensures { OnOk result (to.new.items ≡ to.old.items ++ steps_text codes.now 0 steps.now answers.now) }
{
    let mut committed = 0;
    for (index, answer) in answers.iter().enumerate() {
        push_step(to, steps[index], answer, committed, codes)?;
        committed += commits_in(answer);
    }
    Ok(())
}

// The line of a step, where so many nodes were committed before.
fn push_step(
    to: &mut Vec<u8>,
    step: Step,
    answer: &Answer,
    committed: usize,
    codes: &[i32],
) -> Result<(), NoMemory>
    requires { IsBelow (length codes.now) (category_in answer.now) }
    ensures { OnOk result (to.new.items ≡ to.old.items ++ step_line codes.now committed step answer.now) }
{
    push_words(to, step)?;
    to.extend_from_slice(b" -> ")?;
    push_answer(to, answer, committed, codes)?;
    to.push(b'\n')?;
    Ok(())
}

// The words of a step.
fn push_words(to: &mut Vec<u8>, step: Step) -> Result<(), NoMemory>
    ensures { OnOk result (to.new.items ≡ to.old.items ++ step_text step) }
{
    match step.worker() {
        Some(worker) => push_told(to, step.name().as_bytes(), &[u32::from(worker)]),
        None => push_told(to, step.name().as_bytes(), &[]),
    }
}

fn push_log(to: &mut Vec<u8>, log: LogLength) -> Result<(), NoMemory>
    ensures { OnOk result (to.new.items ≡ to.old.items ++ log_line log) }
{
    to.extend_from_slice(b"log ")?;
    push_whole(to, i128::from(log.entries))?;
    to.extend_from_slice(b" of ")?;
    push_whole(to, i128::from(log.nodes))?;
    to.push(b'\n')?;
    Ok(())
}

fn push_realisation(to: &mut Vec<u8>, realisation: u32) -> Result<(), NoMemory>
    ensures { OnOk result (to.new.items ≡ to.old.items ++ realisation_line realisation) }
{
    push_told(to, b"realisation", &[realisation])?;
    to.push(b'\n')?;
    Ok(())
}
