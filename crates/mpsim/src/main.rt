//! `mpsim` simulates a categorical variable on a regular grid from a training image.
#![tactic(auto)]

use mp_outside::{HostFiles, HostSink};
use mps_top::{Fault, answer, refuse};
use std::env;
use std::io::ErrorKind;
use std::process::ExitCode;
use worker_gate::OpenGate;

fn main(rt: HostRuntime) -> ExitCode {
    // The files come first: they take the descriptors of standard streams that were closed.
    let mut files = HostFiles::new(rt);
    let mut out = HostSink::new(rt.stdout());
    let mut err = HostSink::new(rt.stderr());
    let status = match words(&rt) {
        Ok(words) => answer(
            &rt,
            rt.alloc(),
            &words,
            &mut files,
            &mut out,
            &mut err,
            &OpenGate,
        ),
        Err(fault) => refuse(&fault, &mut err),
    };
    ExitCode::from(status)
}

// The words of the command, without the program's name. Words that aren't text are no command.
fn words(rt: &HostRuntime) -> Result<Vec<String>, Fault> {
    match env::args(rt) {
        Ok(words) => words
            .skip(1)
            .collect(rt.alloc())
            .map_err(|_| Fault::OutOfMemory),
        Err(error) if error.kind() == ErrorKind::OutOfMemory => Err(Fault::OutOfMemory),
        Err(_) => Err(Fault::Usage),
    }
}
