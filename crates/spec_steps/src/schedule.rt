// Schedules: written lists of steps.
ghost use Rattle.std.specs.Prelude.{◌≡◌};
ghost use Rattle.spec_steps.specs.declared.schedule.ScheduleError.TheVariants as errors;

use crate::step::Step;
use std::alloc::AllocFailed;
use std::marker::Model;

/// Steps, in the order in which they are taken.
#[derive(Drop)]
pub struct Steps {
    steps: Vec<Step>,
}

impl Model for Steps {
    ghost use Rattle.std.specs.Prelude.{List};
    ghost use Rattle.spec_steps.specs.declared.step.Step.{Step};

    ghost Value = { List Step };

    ghost view = { λ s. s.steps.items };
}

impl Steps {
    /// The list of these steps.
    pub fn new(steps: Vec<Step>) -> Steps
        ensures { result ≡ steps.items }
    {
        Steps { steps }
    }

    /// The steps, in order.
    pub fn as_slice(&self) -> &[Step]
        ensures { result.now ≡ self.now }
    {
        self.steps.as_slice()
    }

    /// The steps as they were given.
    pub fn into_inner(self) -> Vec<Step>
        ensures { result.items ≡ self }
    {
        self.steps
    }
}

/// Steps of so many workers over the board of a level, counted from 1, of a realisation, counted
/// from 0.
#[derive(Drop)]
pub struct Schedule {
    pub realisation: u32,
    pub level: u8,
    pub workers: u8,
    pub steps: Steps,
}

/// Why no schedule was read.
#[derive(Clone, Copy, Debug, PartialEq, Eq)]
pub enum ScheduleError {
    /// The first line that doesn't fit, counted from 1.
    BadLine { line: u32 },
    /// The file has more than 2^22 bytes.
    TooLong,
    /// Memory ran out.
    NoMemory,
}

impl<T: Drop> From<AllocFailed<T>> for ScheduleError {
    ghost from_gives = { λ _ e. e ≡ errors.NoMemory };

    fn from(_: AllocFailed<T>) -> ScheduleError {
        ScheduleError::NoMemory
    }
}
