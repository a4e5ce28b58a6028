//! Steps of workers and of the board, schedules of steps as files hold them, and what steps are
//! answered.
#![tactic(auto)]

mod answer;
mod lines;
mod reading;
mod schedule;
mod step;
#[cfg(test)]
mod tests;
mod words;

pub use answer::Answer;
pub use reading::read_schedule;
pub use schedule::{Schedule, ScheduleError, Steps};
pub use step::Step;
