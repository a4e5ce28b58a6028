// Reading a schedule.
ghost use Rattle.std.specs.Prelude.{◌≡◌, IfErr, IfOk, Ok};
ghost use Rattle.mp_outside.specs.Seen.{OnlyReads};
ghost use Rattle.mps_inputs.specs.Answers.{IsAccepted, IsInputFault, IsRefusal};
ghost use Rattle.mps_inputs.specs.Inputs.{read_as};
ghost use Rattle.spec_steps.specs.Schedule.{IsSchedule};
ghost use Rattle.mps_replay.specs.Outcome.{schedule_fault as schedule_fault_of, schedule_in as schedule_in_file};

use mp_outside::Files;
use mp_params::Params;
use mps_inputs::{Fault, Name, ScheduleFault, read_file};
use spec_steps::{Schedule, ScheduleError, read_schedule};
use std::alloc::Global;

// The most bytes of a schedule file.
const SCHEDULE_LIMIT: u32 = 1 << 22;

/// Reads a schedule, and judges it under parameters.
pub fn read_schedule_file<F: Files>(
    alloc: Global,
    files: &mut F,
    name: &Name,
    parameters: &Params,
) -> Result<Schedule, Fault>
    ensures read { IsAccepted (read_as (schedule_in_file parameters.now) name.now) (F.seen files.old) result }
    ensures schedule { IfOk result (IsSchedule parameters.now.realisations parameters.now.levels) }
    ensures fault { IfErr result (IsInputFault (read_as (schedule_in_file parameters.now) name.now) (F.seen files.old) (F.seen files.new)) }
    ensures only { OnlyReads (F.seen files.old) (F.seen files.new) }
{
    let bytes = read_file(alloc, files, name.as_str(), SCHEDULE_LIMIT)?;
    schedule_in(alloc, parameters, &bytes)
}

// The schedule that a file's bytes give.
fn schedule_in(alloc: Global, parameters: &Params, bytes: &[u8]) -> Result<Schedule, Fault>
    ensures given { IfOk result (λ s. schedule_in_file parameters.now bytes.now ≡ Ok s) }
    ensures schedule { IfOk result (IsSchedule parameters.now.realisations parameters.now.levels) }
    ensures fault { IfErr result (IsRefusal (schedule_in_file parameters.now bytes.now)) }
{
    match read_schedule(alloc, bytes, parameters.realisations, parameters.levels) {
        Ok(schedule) => Ok(schedule),
        Err(error) => Err(schedule_fault(error)),
    }
}

// Why a schedule isn't read, as a fault.
fn schedule_fault(error: ScheduleError) -> Fault
    ensures { result ≡ schedule_fault_of error }
{
    match error {
        ScheduleError::BadLine { line } => Fault::Schedule(ScheduleFault::BadLine { line }),
        ScheduleError::TooLong => Fault::Schedule(ScheduleFault::TooLong),
        ScheduleError::NoMemory => Fault::OutOfMemory,
    }
}
