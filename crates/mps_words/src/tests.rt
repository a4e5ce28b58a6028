// The words of a command, each list as a line with a blank between each two words.
use crate::{Command, command_of};
use std::alloc::Global;
use std::test::Fail;

fn words_of(alloc: Global, line: &str) -> Result<Vec<String>, Fail> {
    let mut words = Vec::new(alloc);
    for word in line.split(' ') {
        words.push(String::from_str(alloc, word)?)?;
    }
    Ok(words)
}

// A command as a line of its own.
fn told(alloc: Global, command: &Command) -> Result<String, Fail> {
    let line = match command {
        Command::Run {
            parameters,
            workers,
        } => { format!(in alloc; "run {} with {workers}", parameters.as_str())? }
        Command::Check { parameters } => format!(in alloc; "check {}", parameters.as_str())?,
        Command::Scan { parameters, words } => {
            format!(in alloc; "scan {} at {}", parameters.as_str(), words.level)?
        }
        Command::Replay {
            parameters,
            schedule,
        } => { format!(in alloc; "replay {} by {}", parameters.as_str(), schedule.as_str())? }
        Command::Demo {
            seed,
            by_list: false,
        } => format!(in alloc; "demo {seed}")?,
        Command::Demo {
            seed,
            by_list: true,
        } => format!(in alloc; "demo {seed} by list")?,
    };
    Ok(line)
}

// The command that the words of a line are, as a line of its own.
fn answer_to(alloc: Global, line: &str) -> Result<String, Fail> {
    let words = words_of(alloc, line)?;
    match command_of(alloc, words.as_slice()) {
        Ok(Some(command)) => told(alloc, &command),
        Ok(None) => Ok(String::from_str(alloc, "none")?),
        Err(_) => Ok(String::from_str(alloc, "no memory")?),
    }
}

#[test]
fn words_are_a_command_or_none(rt: HostRuntime) -> Result<(), Fail> {
    let alloc = rt.alloc();
    for (line, wanted) in [
        ("run p1", "run p1 with 1"),
        ("run --workers 8 p1", "run p1 with 8"),
        ("run p1 --workers=64", "run p1 with 64"),
        ("run --workers 0003 -- --workers", "run --workers with 3"),
        ("run -", "run - with 1"),
        ("check -- p1", "check p1"),
        ("scan p1 8 1=0,3=-1", "scan p1 at 8"),
        ("replay p1 -- -s", "replay p1 by -s"),
        ("demo 4294967295", "demo 4294967295"),
        ("demo 7 --list", "demo 7 by list"),
        ("demo --list 7", "demo 7 by list"),
        ("demo --list -- 7", "demo 7 by list"),
        ("", "none"),
        ("run", "none"),
        ("run p1 p1", "none"),
        ("run -- -- p1", "none"),
        ("run p1 --workers", "none"),
        ("run p1 --workers 65", "none"),
        ("run --workers - p1", "none"),
        ("run --workers=2 p1 --workers=2", "none"),
        ("run --help", "none"),
        ("run p1 --list", "none"),
        ("check p1 --workers=2", "none"),
        ("scan p1 1", "none"),
        ("demo --list", "none"),
        ("demo 7 --list --list", "none"),
        ("demo 7 --list=1", "none"),
        ("demo 7 --lis", "none"),
        ("demo 7 --workers 2", "none"),
        ("demo 7 -- --list", "none"),
        ("demo 4294967296", "none"),
        ("help run", "none"),
    ] {
        assert_eq!(rt; answer_to(alloc, line)?.as_str(), wanted, "of {line}");
    }
    Ok(())
}
