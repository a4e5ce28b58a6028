// The line that tells a fault.
ghost use Rattle.std.specs.Prelude.{◌≡◌, ◌++◌, ◌≤◌, codes, length};
ghost use Rattle.std.specs.Fmt.{decimal};
ghost use Rattle.mps_inputs.specs.Lines.{at_line, line_of, parameters_reason, table_reason};

use crate::fault::{Fault, ScheduleFault};
use arrayvec::ArrayString;
use gslib_grid::TableFault;
use itoa::Buffer;
use mp_params::{Key, ParamsFault};

/// The line that tells a fault on standard error, with its end.
pub fn fault_line(fault: &Fault) -> ArrayString<512>
    ensures { result.bytes ≡ line_of fault.now }
{
    match fault {
        Fault::Usage => line_with(
            "usage: run PARAMS [--workers N] | check PARAMS | scan PARAMS LEVEL EVENT | replay PARAMS SCHEDULE | demo N [--list]",
            "",
        ),
        Fault::Parameters(fault) => parameters_line(fault),
        Fault::CannotRead { name } => line_with("cannot read ", name.as_str()),
        Fault::CannotWrite { name } => line_with("cannot write ", name.as_str()),
        Fault::Image(fault) => table_line("image: ", fault),
        Fault::Points(fault) => table_line("points: ", fault),
        Fault::TooFewPositions { level, have, want } => line_of_count(*level, *have, *want),
        Fault::OutOfMemory => line_with("out of memory", ""),
        Fault::CannotReport => line_with("cannot write the report", ""),
        Fault::Schedule(fault) => schedule_line(fault),
    }
}

fn parameters_line(fault: &ParamsFault) -> ArrayString<512>
    ensures { result.bytes ≡ line_of (Fault.Parameters fault.now) }
{
    match fault {
        ParamsFault::TooLong => line_with("parameters: ", "file too long"),
        ParamsFault::BadLine { line } => line_at("parameters: ", *line, "not a key and a value"),
        ParamsFault::UnknownKey { line } => line_at("parameters: ", *line, "unknown key"),
        ParamsFault::Twice { line } => line_at("parameters: ", *line, "key given twice"),
        ParamsFault::BadValue { line } => line_at("parameters: ", *line, "bad value"),
        ParamsFault::Absent { key } => absent_line(*key),
        ParamsFault::BadMissing => line_with("parameters: ", "missing code is a category"),
        ParamsFault::BadTargets => line_with("parameters: ", "targets do not fit"),
    }
}

fn absent_line(key: Key) -> ArrayString<512>
    ensures { result.bytes ≡ line_of (Fault.Parameters (ParamsFault.Absent key)) }
{
    let mut line = ArrayString::new();
    line.push_str("mpsim: parameters: ");
    line.push_str(key.name());
    line.push_str(" is absent\n");
    line
}

// The line of a file's table.
fn table_line(file: &str, fault: &TableFault) -> ArrayString<512>
    requires { length file.now ≤ 20 }
    ensures { result.bytes ≡ codes "mpsim: " ++ ((file.now ++ table_reason fault.now) ++ codes "\n") }
{
    match fault {
        TableFault::NoTitle => line_with(file, "no title"),
        TableFault::BadCount => line_at(file, 2, "bad count"),
        TableFault::NoColumn => line_at(file, 2, "no such column"),
        TableFault::ShortRow { line } => line_at(file, *line, "short row"),
        TableFault::BadNumber { line } => line_at(file, *line, "bad number"),
        TableFault::UnknownCategory { line } => line_at(file, *line, "unknown category"),
        TableFault::TooFewRows { line } => line_at(file, *line, "too few rows"),
        TableFault::TooManyRows { line } => line_at(file, *line, "too many rows"),
        TableFault::TooLong { line } => line_at(file, *line, "too long"),
    }
}

fn schedule_line(fault: &ScheduleFault) -> ArrayString<512>
    ensures { result.bytes ≡ line_of (Fault.Schedule fault.now) }
{
    match fault {
        ScheduleFault::BadLine { line } => {
            line_with("schedule: line ", Buffer::new().format(*line))
        }
        ScheduleFault::TooLong => line_with("schedule: ", "file too long"),
    }
}

// A line of a reason in two parts, of which the second may be a name.
fn line_with(reason: &str, more: &str) -> ArrayString<512>
    requires reason { length reason.now ≤ 200 }
    requires more { length more.now ≤ 255 }
    ensures { result.bytes ≡ codes "mpsim: " ++ ((reason.now ++ more.now) ++ codes "\n") }
{
    let mut line = ArrayString::new();
    line.push_str("mpsim: ");
    line.push_str(reason);
    line.push_str(more);
    line.push_str("\n");
    line
}

// A line of a reason that names a line of a file.
fn line_at(file: &str, number: u32, reason: &str) -> ArrayString<512>
    requires file { length file.now ≤ 20 }
    requires reason { length reason.now ≤ 60 }
    ensures { result.bytes ≡ codes "mpsim: " ++ ((file.now ++ at_line number reason.now) ++ codes "\n") }
{
    let mut line = ArrayString::new();
    line.push_str("mpsim: ");
    line.push_str(file);
    line.push_str("line ");
    line.push_str(Buffer::new().format(number));
    line.push_str(": ");
    line.push_str(reason);
    line.push_str("\n");
    line
}

fn line_of_count(level: u8, have: u32, want: u32) -> ArrayString<512>
    ensures { result.bytes ≡ line_of (Fault.TooFewPositions level have want) }
{
    let mut line = ArrayString::new();
    line.push_str("mpsim: too few positions at level ");
    line.push_str(Buffer::new().format(level));
    line.push_str(": have ");
    line.push_str(Buffer::new().format(have));
    line.push_str(", want ");
    line.push_str(Buffer::new().format(want));
    line.push_str("\n");
    line
}
