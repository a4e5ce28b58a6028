// The commands of `clap` that find the words of a command.
ghost use Rattle.std.specs.Prelude.{◌≡◌, IfOk, true, false};
ghost use Rattle.clap.specs.Faults.{is_simple_and_free};
ghost use Rattle.clap.specs.Simple.{app_of};
ghost use Rattle.clap.specs.Walk.{rule_of};
ghost use Rattle.mps_words.specs.Forms.{Finds, check_app, demo_app, list_option, place, plain_app, replay_app, run_app, scan_app, workers_option};
ghost use Rattle.mps_words.specs.Words.{texts};

use clap::error::ErrorKind;
use clap::{Arg, ArgAction, ArgMatches};
use mp_base::NoMemory;
use std::alloc::{AllocError, Global};

/// `run`: a parameter file, and perhaps a number of workers.
pub(crate) fn run_form<'a>(alloc: Global) -> Result<clap::Command<'a>, AllocError>
    ensures { IfOk result (λ form. app_of form ≡ run_app) }
{
    plain_form(alloc, "run")
        .arg(place(alloc, "parameters"))?
        .arg(workers_option(alloc))
}

/// `check`: a parameter file.
pub(crate) fn check_form<'a>(alloc: Global) -> Result<clap::Command<'a>, AllocError>
    ensures { IfOk result (λ form. app_of form ≡ check_app) }
{
    plain_form(alloc, "check").arg(place(alloc, "parameters"))
}

/// `scan`: a parameter file, a level and an event.
pub(crate) fn scan_form<'a>(alloc: Global) -> Result<clap::Command<'a>, AllocError>
    ensures { IfOk result (λ form. app_of form ≡ scan_app) }
{
    plain_form(alloc, "scan")
        .arg(place(alloc, "parameters"))?
        .arg(place(alloc, "level"))?
        .arg(place(alloc, "event"))
}

/// `replay`: a parameter file and a schedule.
pub(crate) fn replay_form<'a>(alloc: Global) -> Result<clap::Command<'a>, AllocError>
    ensures { IfOk result (λ form. app_of form ≡ replay_app) }
{
    plain_form(alloc, "replay")
        .arg(place(alloc, "parameters"))?
        .arg(place(alloc, "schedule"))
}

/// `demo`: a seed, and perhaps the flag `--list`.
pub(crate) fn demo_form<'a>(alloc: Global) -> Result<clap::Command<'a>, AllocError>
    ensures { IfOk result (λ form. app_of form ≡ demo_app) }
{
    plain_form(alloc, "demo")
        .arg(place(alloc, "seed"))?
        .arg(list_option(alloc))
}

// A command that takes all words that it is given as its own, and knows none of help or version.
fn plain_form<'a>(alloc: Global, name: &'a str) -> clap::Command<'a>
    ensures { app_of result ≡ plain_app name.entry.now }
{
    clap::Command::new(alloc, name)
        .no_binary_name(true)
        .disable_help_flag(true)
        .disable_version_flag(true)
}

// A word in its place. How many there are is for the caller to say.
fn place<'a>(alloc: Global, id: &'a str) -> Arg<'a>
    ensures rule { rule_of result ≡ place id.entry.now }
    ensures local { result.global ≡ false }
{
    Arg::new(alloc, id).action(ArgAction::Set)
}

// `--workers` with a number.
fn workers_option<'a>(alloc: Global) -> Arg<'a>
    ensures rule { rule_of result ≡ workers_option }
    ensures local { result.global ≡ false }
{
    Arg::new(alloc, "workers")
        .long("workers")
        .action(ArgAction::Set)
}

// `--list`, without a value.
fn list_option<'a>(alloc: Global) -> Arg<'a>
    ensures rule { rule_of result ≡ list_option }
    ensures local { result.global ≡ false }
{
    Arg::new(alloc, "list")
        .long("list")
        .action(ArgAction::SetTrue)
}

/// What the command finds among the words, or nothing exactly where it refuses them.
pub(crate) fn found_in<'a>(
    form: clap::Command<'a>,
    words: &'a [String],
) -> Result<Option<ArgMatches<'a>>, NoMemory>
    requires { is_simple_and_free (app_of form) ≡ true }
    ensures { IfOk result (Finds (app_of form.entry) (texts words.entry.now)) }
{
    match form.try_get_matches_from(words) {
        Ok(found) => Ok(Some(found)),
        Err(error) => match error.kind() {
            ErrorKind::OutOfMemory => Err(NoMemory),
            _ => Ok(None),
        },
    }
}
