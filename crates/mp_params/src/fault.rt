// Why parameters are refused.
ghost use Rattle.std.specs.Prelude.{◌≡◌};
ghost use Rattle.mp_params.specs.declared.fault.ParamsError.TheVariants as errors;

use crate::table::Key;
use mp_base::NoMemory;
use std::alloc::{AllocError, AllocFailed};

/// What is wrong with a parameter file. Lines count from 1, and the first line with a fault
/// decides.
#[derive(Clone, Copy, Debug, PartialEq, Eq)]
pub enum ParamsFault {
    /// The file has more than 65,536 bytes.
    TooLong,
    /// The line isn't a key, a `=` and a value, or has a byte that no line may hold.
    BadLine { line: u32 },
    /// No key has this name.
    UnknownKey { line: u32 },
    /// An earlier line has the key.
    Twice { line: u32 },
    /// The value hasn't the form that its key wants.
    BadValue { line: u32 },
    /// No line has this key, which is the first of those that are required and missing.
    Absent { key: Key },
    /// The code of missing values is the code of a category.
    BadMissing,
    /// The targets aren't as many as the categories, or their sum isn't a million.
    BadTargets,
}

/// Why no parameters were read.
#[derive(Clone, Copy, Debug, PartialEq, Eq)]
pub enum ParamsError {
    /// The file is refused.
    Fault(ParamsFault),
    /// Memory ran out.
    NoMemory,
}

impl From<ParamsFault> for ParamsError {
    ghost from_gives = { λ f e. e ≡ errors.Fault f };

    fn from(fault: ParamsFault) -> ParamsError {
        ParamsError::Fault(fault)
    }
}

impl From<NoMemory> for ParamsError {
    ghost from_gives = { λ _ e. e ≡ errors.NoMemory };

    fn from(_: NoMemory) -> ParamsError {
        ParamsError::NoMemory
    }
}

impl From<AllocError> for ParamsError {
    ghost from_gives = { λ _ e. e ≡ errors.NoMemory };

    fn from(_: AllocError) -> ParamsError {
        ParamsError::NoMemory
    }
}

impl<T: Drop> From<AllocFailed<T>> for ParamsError {
    ghost from_gives = { λ _ e. e ≡ errors.NoMemory };

    fn from(_: AllocFailed<T>) -> ParamsError {
        ParamsError::NoMemory
    }
}
