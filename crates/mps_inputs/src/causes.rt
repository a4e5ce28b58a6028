// Faults of the layers below, as faults of a command.
ghost use Rattle.std.specs.Prelude.{◌≡◌};
ghost use Rattle.mps_inputs.specs.Inputs.{params_fault};
ghost use Rattle.mps_inputs.specs.Setup.{run_fault};
ghost use Rattle.mps_inputs.specs.declared.fault.Fault.TheVariants.{OutOfMemory as WantOfMemory};

use crate::fault::Fault;
use mp_base::NoMemory;
use mp_params::ParamsError;
use seq_engine::RunError;
use std::alloc::{AllocError, AllocFailed};

impl From<NoMemory> for Fault {
    ghost from_gives = { λ _ fault. fault ≡ WantOfMemory };

    fn from(_: NoMemory) -> Fault {
        Fault::OutOfMemory
    }
}

impl From<AllocError> for Fault {
    ghost from_gives = { λ _ fault. fault ≡ WantOfMemory };

    fn from(_: AllocError) -> Fault {
        Fault::OutOfMemory
    }
}

impl<T: Drop> From<AllocFailed<T>> for Fault {
    ghost from_gives = { λ _ fault. fault ≡ WantOfMemory };

    fn from(_: AllocFailed<T>) -> Fault {
        Fault::OutOfMemory
    }
}

impl From<ParamsError> for Fault {
    ghost from_gives = { λ error fault. fault ≡ params_fault error };

    fn from(error: ParamsError) -> Fault {
        match error {
            ParamsError::Fault(fault) => Fault::Parameters(fault),
            ParamsError::NoMemory => Fault::OutOfMemory,
        }
    }
}

impl From<RunError> for Fault {
    ghost from_gives = { λ error fault. fault ≡ run_fault error };

    fn from(error: RunError) -> Fault {
        match error {
            RunError::TooFewPositions { level, have, want } => {
                Fault::TooFewPositions { level, have, want }
            }
            RunError::NoMemory => Fault::OutOfMemory,
        }
    }
}
