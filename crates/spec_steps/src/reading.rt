// Schedules read from a file.
ghost use Rattle.std.specs.Prelude.{All, IfOk};
ghost use Rattle.spec_steps.specs.Lines.{end_of, kept_in};
ghost use Rattle.spec_steps.specs.Schedule.{Gives, IsSchedule, schedule_in, schedule_of, steps_in};
ghost use Rattle.spec_steps.specs.Steps.{IsStepOf};

use crate::lines::Lines;
use crate::schedule::{Schedule, ScheduleError, Steps};
use crate::words::{heading_of, is_title, step_of};
use std::alloc::Global;

// The greatest length of a schedule file.
const MAX_BYTES: usize = 4_194_304;

/// The schedule that a file writes, or why it is refused: too many bytes, then the first line that
/// doesn't fit. Lines of blanks alone and lines whose first byte other than a blank is `#` are
/// skipped. The first that is left is `schedule 1`; the second `realisation R level G workers W`, of
/// a realisation below so many, a level from 1 to so many and 1 to 64 workers; and each further one
/// a step, of a worker from 1 to W or of the board. Where the file ends before the second, the line
/// behind the last doesn't fit.
#[tactic(auto, unfolding(crate::specs::Schedule::schedule_of))]
pub fn read_schedule(
    alloc: Global,
    bytes: &[u8],
    realisations: u32,
    levels: u8,
) -> Result<Schedule, ScheduleError>
    ensures value { Gives result (schedule_of realisations levels bytes.now) }
    ensures within { IfOk result (IsSchedule realisations levels) }
{
    if bytes.len() > MAX_BYTES {
        return Err(ScheduleError::TooLong);
    }
    schedule_in(alloc, &mut Lines::new(bytes), realisations, levels)
}

// The schedule that these lines write.
fn schedule_in(
    alloc: Global,
    lines: &mut Lines<'_>,
    realisations: u32,
    levels: u8,
) -> Result<Schedule, ScheduleError>
    ensures value { Gives result (schedule_in realisations levels (end_of lines.old) (kept_in lines.old)) }
    ensures within { IfOk result (IsSchedule realisations levels) }
{
    let Some(title) = lines.next() else {
        return Err(ScheduleError::BadLine { line: lines.end() });
    };
    if !is_title(title.text) {
        return Err(ScheduleError::BadLine { line: title.number });
    }
    let Some(second) = lines.next() else {
        return Err(ScheduleError::BadLine { line: lines.end() });
    };
    let Some(heading) = heading_of(second.text, realisations, levels) else {
        return Err(ScheduleError::BadLine {
            line: second.number,
        });
    };
    match steps_in(alloc, lines, heading.workers) {
        Ok(steps) => Ok(Schedule {
            realisation: heading.realisation,
            level: heading.level,
            workers: heading.workers,
            steps,
        }),
        Err(error) => Err(error),
    }
}

// The steps that these lines write, where so many workers take steps.
fn steps_in(alloc: Global, lines: &mut Lines<'_>, workers: u8) -> Result<Steps, ScheduleError>
    ensures value { Gives result (steps_in workers (kept_in lines.old)) }
    ensures workers { IfOk result (All (IsStepOf workers)) }
{
    let mut steps = Vec::new(alloc);
    while let Some(line) = lines.next() {
        let Some(step) = step_of(line.text, workers) else {
            return Err(ScheduleError::BadLine { line: line.number });
        };
        steps.push(step)?;
    }
    Ok(Steps::new(steps))
}
