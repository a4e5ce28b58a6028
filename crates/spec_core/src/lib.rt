//! The machine of claims, looks, counts, offers and commits, one step of one worker or of the board at
//! a time: whatever steps are taken in whatever order, its log is a front of the sequential log.
#![tactic(auto)]

mod run;
#[cfg(test)]
mod tests;
mod worker;
mod world;

pub use run::run_schedule;
pub use spec_steps::{Answer, Schedule, ScheduleError, Step, Steps, read_schedule};
pub use world::World;
