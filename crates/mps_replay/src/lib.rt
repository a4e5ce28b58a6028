//! The command `replay`: a realisation of which one level is run by the steps of a schedule, and what
//! each step was answered.
#![tactic(auto)]

mod command;
mod kept;
mod level;
mod replayer;
mod schedule;

pub use command::replay;
