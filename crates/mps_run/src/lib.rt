//! What `run` writes: the realisations one after another into the output file, and then the report.
#![tactic(auto)]

mod putting;
mod realisations;
mod writing;

pub use writing::{facts_of, tell_report, write_run};
