//! The command `scan`: how often an event has replicates at a level. Its words, how they fit the
//! parameters, and its text.
#![tactic(auto)]

mod coded;
mod command;
mod counting;
mod fit;
mod plan;
#[cfg(test)]
mod tests;
mod text;
mod words;

pub use command::scan;
pub use words::{ScanWords, number_up_to, read_scan_words};
