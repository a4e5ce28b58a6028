//! The commands: from words and files to an output file, a text on `out`, a line on `err` and a
//! status.
#![tactic(auto)]

mod beside;
mod calls;
mod check;
#[cfg(test)]
mod tests;
mod texts;

pub use calls::{answer, answer_alone, answer_in_memory, refuse};
pub use mps_inputs::{Fault, Name, ScheduleFault, fault_line};
