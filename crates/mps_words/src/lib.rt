//! The words of a command: which words are a command, and which one. `clap` finds the words in their
//! places and the options among them.
#![tactic(auto)]

mod forms;
#[cfg(test)]
mod tests;
mod words;

pub use words::{Command, command_of};
