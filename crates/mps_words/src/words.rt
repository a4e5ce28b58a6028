// The words of a command: which words are one, and which one.
ghost use Rattle.std.specs.Prelude.{◌≡◌, ◌≤◌, ◌++◌, [], IfErr, IfOk, IfSome, true};
ghost use Rattle.mps_words.specs.Forms.{flagged, listed, numbered};
ghost use Rattle.mps_words.specs.Words.{IsInRange, check_of as check_of_parts, command_by, command_named as command_named_words, command_of as command_of_words, demo_of as demo_of_parts, is_command_name, is_name as is_name_text, name_of as name_of_word, names_a_command, replay_of as replay_of_parts, run_of as run_of_parts, scan_of as scan_of_parts, seed_of as seed_of_word, texts, workers_of as workers_of_word};

use crate::forms::{check_form, demo_form, found_in, replay_form, run_form, scan_form};
use mp_base::{NoMemory, short_number};
use mps_inputs::Name;
use mps_scan::{ScanWords, number_up_to, read_scan_words};
use std::alloc::Global;

// The greatest number of workers.
const MAX_WORKERS: u8 = 64;

/// A command, with what its words say.
#[derive(Drop)]
pub enum Command {
    /// Simulates with so many workers, 1 to 64, and writes the realisations.
    Run { parameters: Name, workers: u8 },
    /// Judges all inputs of a run, and tells what they are.
    Check { parameters: Name },
    /// Tells how often an event has replicates at a level.
    Scan { parameters: Name, words: ScanWords },
    /// Simulates a realisation, one level by a schedule, and tells what its steps were answered.
    Replay { parameters: Name, schedule: Name },
    /// Simulates over an image and wells that it makes by a seed, counted by a list of patterns or
    /// else by a search tree, and tells the report.
    Demo { seed: u32, by_list: bool },
}

/// The command that the words are, or nothing exactly where they are none. Memory can be wanting
/// only where the first word is the name of a command.
#[tactic(auto, unfolding(crate::specs::Words::command_of))]
pub fn command_of(alloc: Global, words: &[String]) -> Result<Option<Command>, NoMemory>
    ensures command { IfOk result (λ command. command ≡ command_of_words (texts words.now)) }
    ensures range { IfOk result (λ command. IfSome command IsInRange) }
    ensures memory { IfErr result (λ _. names_a_command (texts words.now) ≡ true) }
{
    match words {
        [name, rest @ ..] => command_named(alloc, name.as_str(), rest),
        [] => Ok(None),
    }
}

// The command of this name with the words behind it.
fn command_named(alloc: Global, name: &str, words: &[String]) -> Result<Option<Command>, NoMemory>
    ensures command { IfOk result (λ command. command ≡ command_named_words name.now (texts words.now)) }
    ensures range { IfOk result (λ command. IfSome command IsInRange) }
    ensures memory { IfErr result (λ _. is_command_name name.now ≡ true) }
{
    if name == "run" {
        run_of(alloc, words)
    } else if name == "check" {
        check_of(alloc, words)
    } else if name == "scan" {
        scan_of(alloc, words)
    } else if name == "replay" {
        replay_of(alloc, words)
    } else if name == "demo" {
        demo_of(alloc, words)
    } else {
        Ok(None)
    }
}

// `run` with the words behind it.
fn run_of(alloc: Global, words: &[String]) -> Result<Option<Command>, NoMemory>
    ensures command { IfOk result (λ command. command ≡ command_by run_of_parts (texts words.now)) }
    ensures range { IfOk result (λ command. IfSome command IsInRange) }
{
    match found_in(run_form(alloc)?, words)? {
        Some(found) => Ok(run_over(found.get_str("parameters"), found.get_str("workers"))),
        None => Ok(None),
    }
}

// `run` over the value of its place and that of its option.
fn run_over(name: Option<&str>, workers: Option<&str>) -> Option<Command>
    ensures command { result ≡ run_of_parts (numbered workers.entry) (listed name.entry) }
    ensures range { IfSome result IsInRange }
{
    let parameters = name_of(name?)?;
    let workers = match workers {
        Some(number) => workers_of(number)?,
        None => 1,
    };
    Some(Command::Run {
        parameters,
        workers,
    })
}

// `check` with the words behind it.
fn check_of(alloc: Global, words: &[String]) -> Result<Option<Command>, NoMemory>
    ensures command { IfOk result (λ command. command ≡ command_by check_of_parts (texts words.now)) }
    ensures range { IfOk result (λ command. IfSome command IsInRange) }
{
    match found_in(check_form(alloc)?, words)? {
        Some(found) => Ok(check_over(found.get_str("parameters"))),
        None => Ok(None),
    }
}

// `check` over the value of its place.
fn check_over(name: Option<&str>) -> Option<Command>
    ensures command { result ≡ check_of_parts [] (listed name.entry) }
    ensures range { IfSome result IsInRange }
{
    Some(Command::Check {
        parameters: name_of(name?)?,
    })
}

// `scan` with the words behind it.
fn scan_of(alloc: Global, words: &[String]) -> Result<Option<Command>, NoMemory>
    ensures command { IfOk result (λ command. command ≡ command_by scan_of_parts (texts words.now)) }
    ensures range { IfOk result (λ command. IfSome command IsInRange) }
{
    match found_in(scan_form(alloc)?, words)? {
        Some(found) => Ok(scan_over(
            found.get_str("parameters"),
            found.get_str("level"),
            found.get_str("event"),
        )),
        None => Ok(None),
    }
}

// `scan` over the values of its places.
fn scan_over(name: Option<&str>, level: Option<&str>, event: Option<&str>) -> Option<Command>
    ensures command { result ≡ scan_of_parts [] (listed name.entry ++ (listed level.entry ++ listed event.entry)) }
    ensures range { IfSome result IsInRange }
{
    let (name, level, event) = (name?, level?, event?);
    let parameters = name_of(name)?;
    let words = read_scan_words(level.as_bytes(), event.as_bytes())?;
    Some(Command::Scan { parameters, words })
}

// `replay` with the words behind it.
fn replay_of(alloc: Global, words: &[String]) -> Result<Option<Command>, NoMemory>
    ensures command { IfOk result (λ command. command ≡ command_by replay_of_parts (texts words.now)) }
    ensures range { IfOk result (λ command. IfSome command IsInRange) }
{
    match found_in(replay_form(alloc)?, words)? {
        Some(found) => Ok(replay_over(found.get_str("parameters"), found.get_str("schedule"))),
        None => Ok(None),
    }
}

// `replay` over the values of its places.
fn replay_over(name: Option<&str>, schedule: Option<&str>) -> Option<Command>
    ensures command { result ≡ replay_of_parts [] (listed name.entry ++ listed schedule.entry) }
    ensures range { IfSome result IsInRange }
{
    let (name, schedule) = (name?, schedule?);
    let parameters = name_of(name)?;
    let schedule = name_of(schedule)?;
    Some(Command::Replay {
        parameters,
        schedule,
    })
}

// `demo` with the words behind it.
fn demo_of(alloc: Global, words: &[String]) -> Result<Option<Command>, NoMemory>
    ensures command { IfOk result (λ command. command ≡ command_by demo_of_parts (texts words.now)) }
    ensures range { IfOk result (λ command. IfSome command IsInRange) }
{
    match found_in(demo_form(alloc)?, words)? {
        Some(found) => Ok(demo_over(found.get_str("seed"), found.get_flag("list"))),
        None => Ok(None),
    }
}

// `demo` over the value of its place and its flag.
fn demo_over(seed: Option<&str>, by_list: bool) -> Option<Command>
    ensures command { result ≡ demo_of_parts (flagged by_list) (listed seed.entry) }
    ensures range { IfSome result IsInRange }
{
    let seed = seed_of(seed?)?;
    Some(Command::Demo { seed, by_list })
}

// The name of a file that a word is, if it is one.
fn name_of(word: &str) -> Option<Name>
    ensures { result ≡ name_of_word word.now }
{
    if is_name(word.as_bytes()) {
        Some(Name::new(word))
    } else {
        None
    }
}

// Up to 255 bytes, each from the space to the tilde.
fn is_name(word: &[u8]) -> bool
    ensures { result ≡ is_name_text word.now }
{
    !word.is_empty() && word.len() <= 255 && word.iter().all(|byte| *byte >= 32 && *byte <= 126)
}

// How many workers a word of one to four digits asks for, from 1 to 64.
fn workers_of(word: &str) -> Option<u8>
    ensures value { result ≡ workers_of_word word.now }
    ensures some { IfSome result (λ workers. 1 ≤ workers) }
    ensures few { IfSome result (λ workers. workers ≤ 64) }
{
    number_up_to(word.as_bytes(), 4, MAX_WORKERS)
}

// The seed that a word of one to ten digits is.
fn seed_of(word: &str) -> Option<u32>
    ensures value { result ≡ seed_of_word word.now }
{
    let number = short_number(word.as_bytes(), 10)?;
    if number <= u128::from(u32::MAX) {
        Some(number as u32)
    } else {
        None
    }
}
