// The exit status of an answer.
ghost use Rattle.std.specs.Prelude.{◌≡◌};
ghost use Rattle.mps_inputs.specs.Status.{status_of, status_of_fault};

use crate::fault::Fault;

/// The status of an answer: 0, or the number of its fault.
pub fn status(answer: &Result<(), Fault>) -> u8
    ensures { result ≡ status_of answer.now }
{
    match answer {
        Ok(()) => 0,
        Err(fault) => fault_status(fault),
    }
}

/// The number of a fault.
pub fn fault_status(fault: &Fault) -> u8
    ensures { result ≡ status_of_fault fault.now }
{
    match fault {
        Fault::Usage => 1,
        Fault::Parameters(_) => 2,
        Fault::CannotRead { .. } => 3,
        Fault::CannotWrite { .. } => 4,
        Fault::Image(_) => 5,
        Fault::Points(_) => 6,
        Fault::TooFewPositions { .. } => 7,
        Fault::OutOfMemory => 8,
        Fault::CannotReport => 9,
        Fault::Schedule(_) => 10,
    }
}
