//! The text of a trace: what each step of a schedule was answered, how far the board came by them, and
//! the realisation.
#![tactic(auto)]

mod answers;
#[cfg(test)]
mod tests;
mod trace;

pub use trace::{LogLength, push_trace};
