// The files that a command reads and writes, and its text for `out`.
ghost use Rattle.std.specs.Prelude.{◌≡◌, ◌≤◌, ◌^◌, [], length, IfErr, IfOk, IsTrue};
ghost use Rattle.mp_outside.specs.Seen.{OnlyReads, OnlyWrites};
ghost use Rattle.mps_inputs.specs.Files.{IsReadFault, IsReadOf, IsReportFault, IsWriteFault, Reported, Written, fault_of};

use crate::fault::{Fault, Name};
use mp_outside::{Files, OutFault, Sink, read_to_limit};
use std::alloc::Global;

/// Reads a file that the command names, to its end or until it has more bytes than the limit.
pub fn read_file<F: Files>(
    alloc: Global,
    files: &mut F,
    name: &str,
    limit: u32,
) -> Result<Vec<u8>, Fault>
    requires limit { limit ≤ 2 ^ 28 }
    requires name { length name.now ≤ 255 }
    ensures read { IsTrue (F.seen files.old).tells → IfOk result (IsReadOf ((F.seen files.old).held name.now) limit) }
    ensures cause { IfErr result (IsReadFault name.now (F.seen files.old) (F.seen files.new)) }
    ensures only { OnlyReads (F.seen files.old) (F.seen files.new) }
{
    match read_to_limit(alloc, files, name, limit) {
        Ok(bytes) => Ok(bytes),
        Err(OutFault::Failed) => Err(Fault::CannotRead {
            name: Name::new(name),
        }),
        Err(OutFault::NoMemory) => Err(Fault::OutOfMemory),
    }
}

/// Makes the output file, which is empty.
pub fn create_output<F: Files>(files: &mut F, name: &str) -> Result<(), Fault>
    requires { length name.now ≤ 255 }
    ensures made { Written name.now [] (F.seen files.old) (F.seen files.new) result }
    ensures cause { IfErr result (IsWriteFault name.now (F.seen files.old) (F.seen files.new)) }
    ensures only { OnlyWrites name.now (F.seen files.old) (F.seen files.new) }
{
    match files.create(name) {
        Ok(()) => Ok(()),
        Err(fault) => Err(write_fault(name, fault)),
    }
}

/// Why the output file couldn't be written.
pub fn write_fault(name: &str, fault: OutFault) -> Fault
    requires { length name.now ≤ 255 }
    ensures { result ≡ fault_of name.now fault }
{
    match fault {
        OutFault::Failed => Fault::CannotWrite {
            name: Name::new(name),
        },
        OutFault::NoMemory => Fault::OutOfMemory,
    }
}

/// Writes the text for `out` in one piece.
pub fn report<O: Sink>(out: &mut O, text: &[u8]) -> Result<(), Fault>
    ensures written { Reported text.now (O.seen out.old) (O.seen out.new) result }
    ensures cause { IfErr result (IsReportFault (O.seen out.old) (O.seen out.new)) }
{
    match out.write(text) {
        Ok(()) => Ok(()),
        Err(OutFault::Failed) => Err(Fault::CannotReport),
        Err(OutFault::NoMemory) => Err(Fault::OutOfMemory),
    }
}
