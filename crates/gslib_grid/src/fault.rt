// What may be wrong with a table.
ghost use Rattle.std.specs.Prelude.{◌≡◌};
ghost use Rattle.gslib_grid.specs.declared.fault.TableError.TheVariants.{Fault as FaultOf, NoMemory as WantOfMemory};

use mp_base::NoMemory;
use std::alloc::{AllocError, AllocFailed};

/// Why a table isn't accepted. Lines count from 1.
#[derive(Clone, Copy, Debug, PartialEq, Eq)]
pub enum TableFault {
    /// The file has no byte.
    NoTitle,
    /// The second line doesn't tell from 1 to 64 variables, or lines are missing up to the last name.
    BadCount,
    /// A wanted column is beyond the number of variables.
    NoColumn,
    /// The row has fewer fields than there are variables.
    ShortRow { line: u32 },
    /// A wanted field of the row isn't a number of its kind.
    BadNumber { line: u32 },
    /// The row's category is neither listed nor the missing code.
    UnknownCategory { line: u32 },
    /// The file ends before the last row that is wanted: the line is the number of lines.
    TooFewRows { line: u32 },
    /// The line is a row beyond the last that is wanted.
    TooManyRows { line: u32 },
    /// The line has more than 65,536 bytes before its line feed, or reaches beyond 2^28 bytes of the
    /// file.
    TooLong { line: u32 },
}

/// Why no table was read.
#[derive(Clone, Copy, Debug, PartialEq, Eq)]
pub enum TableError {
    /// The table isn't accepted.
    Fault(TableFault),
    /// Memory ran out.
    NoMemory,
}

impl From<TableFault> for TableError {
    ghost from_gives = { λ fault error. error ≡ FaultOf fault };

    fn from(fault: TableFault) -> TableError {
        TableError::Fault(fault)
    }
}

impl From<NoMemory> for TableError {
    ghost from_gives = { λ _ error. error ≡ WantOfMemory };

    fn from(_: NoMemory) -> TableError {
        TableError::NoMemory
    }
}

impl From<AllocError> for TableError {
    ghost from_gives = { λ _ error. error ≡ WantOfMemory };

    fn from(_: AllocError) -> TableError {
        TableError::NoMemory
    }
}

impl<T: Drop> From<AllocFailed<T>> for TableError {
    ghost from_gives = { λ _ error. error ≡ WantOfMemory };

    fn from(_: AllocFailed<T>) -> TableError {
        TableError::NoMemory
    }
}
