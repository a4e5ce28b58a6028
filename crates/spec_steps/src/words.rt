// What the lines of a schedule say.
ghost use Rattle.std.specs.Prelude.{◌≡◌, ◌-◌, ◌≤◌, ◌<◌, ◌==◌, IfSome, length};
ghost use Rattle.std.specs.List.{find};
ghost use Rattle.std.specs.Str.{bytes_eq};
ghost use Rattle.mp_text.specs.Fields.{fields_of};
ghost use Rattle.spec_steps.specs.Steps.{IsStepOf, step_name};
ghost use Rattle.spec_steps.specs.Words.{are_heading, heading_of as heading_in, is_title as is_title_line, number_below as below, number_up_to as up_to, step_of as step_in, word as word_in};

use crate::step::Step;
use mp_base::short_number;
use mp_text::{field_at, has_fields, next_field};

// The greatest number of workers.
const MAX_WORKERS: u8 = 64;

// The greatest number of digits of a number.
const MAX_DIGITS: usize = 4;

/// What the second line names: a realisation, counted from 0, a level, counted from 1, and how many
/// workers there are.
#[derive(Drop)]
pub struct Heading {
    pub realisation: u32,
    pub level: u8,
    pub workers: u8,
}

/// Whether a line has the words `schedule` and `1` and no others.
pub fn is_title(line: &[u8]) -> bool
    ensures { result ≡ is_title_line line.now }
{
    has_words(line, 2)
        && word(line, 1) == b"schedule".as_slice()
        && word(line, 2) == b"1".as_slice()
}

/// The heading that a line is: `realisation R level G workers W`, with R below so many
/// realisations, G from 1 to so many levels and W from 1 to 64.
#[tactic(auto, unfolding(crate::specs::Words::heading_of))]
pub fn heading_of(line: &[u8], realisations: u32, levels: u8) -> Option<Heading>
    ensures value { result ≡ heading_in realisations levels line.now }
    ensures realisation { IfSome result (λ h. h.realisation < realisations) }
    ensures level_some { IfSome result (λ h. 1 ≤ h.level) }
    ensures level { IfSome result (λ h. h.level ≤ levels) }
    ensures workers_some { IfSome result (λ h. 1 ≤ h.workers) }
    ensures workers { IfSome result (λ h. h.workers ≤ 64) }
{
    if !are_heading(line) {
        return None;
    }
    let Some(realisation) = number_below(word(line, 2), realisations) else {
        return None;
    };
    let Some(level) = number_up_to(word(line, 4), levels) else {
        return None;
    };
    let Some(workers) = number_up_to(word(line, 6), MAX_WORKERS) else {
        return None;
    };
    Some(Heading {
        realisation,
        level,
        workers,
    })
}

// Whether a line has six words, and the first, third and fifth are those of a heading.
fn are_heading(line: &[u8]) -> bool
    ensures { result ≡ are_heading (fields_of line.now) }
{
    has_words(line, 6)
        && word(line, 1) == b"realisation".as_slice()
        && word(line, 3) == b"level".as_slice()
        && word(line, 5) == b"workers".as_slice()
}

/// The step that a line is, where so many workers take steps.
#[tactic(auto, unfolding(crate::specs::Words::step_of))]
pub fn step_of(line: &[u8], workers: u8) -> Option<Step>
    ensures value { result ≡ step_in workers line.now }
    ensures worker { IfSome result (IsStepOf workers) }
{
    let Some((name, rest)) = next_field(line) else {
        return None;
    };
    let Some((worker, rest)) = next_field(rest) else {
        return named(&Step::of_board(), name);
    };
    if next_field(rest).is_some() {
        return None;
    }
    let Some(worker) = number_up_to(worker, workers) else {
        return None;
    };
    named(&Step::of_worker(worker), name)
}

// The first of some steps that has this name.
fn named(steps: &[Step], name: &[u8]) -> Option<Step>
    ensures { result ≡ find (λ s. bytes_eq (step_name s) name.now) steps.now }
{
    steps
        .iter()
        .copied()
        .find(|step| step.name().as_bytes() == name)
}

// The word in a column, counted from 1, or no byte where there are fewer.
fn word(line: &[u8], column: usize) -> &[u8]
    requires { 1 ≤ column }
    ensures { result.now ≡ word_in (fields_of line.now) (column - 1) }
{
    field_at(line, column).unwrap_or(b"".as_slice())
}

// Whether a line has exactly so many words.
fn has_words(line: &[u8], count: usize) -> bool
    requires { count ≤ 6 }
    ensures { result ≡ (length (fields_of line.now) == count) }
{
    has_fields(line, count) && !has_fields(line, count + 1)
}

// The number below an end that one to four digits write.
#[tactic(auto, unfolding(crate::specs::Words::number_below))]
fn number_below(text: &[u8], end: u32) -> Option<u32>
    ensures value { result ≡ below end text.now }
    ensures below { IfSome result (λ n. n < end) }
{
    match short_number(text, MAX_DIGITS) {
        Some(number) if number < u128::from(end) => Some(number as u32),
        _ => None,
    }
}

// The number from 1 to a last one that one to four digits write.
#[tactic(auto, unfolding(crate::specs::Words::number_up_to))]
fn number_up_to(text: &[u8], last: u8) -> Option<u8>
    ensures value { result ≡ up_to last text.now }
    ensures some { IfSome result (λ n. 1 ≤ n) }
    ensures few { IfSome result (λ n. n ≤ last) }
{
    match short_number(text, MAX_DIGITS) {
        Some(number) if 1 <= number && number <= u128::from(last) => Some(number as u8),
        _ => None,
    }
}
