// Why a command was refused or broke off.
ghost use Rattle.std.specs.Prelude.{◌≡◌, ◌≤◌, length};

use arrayvec::ArrayString;
use gslib_grid::TableFault;
use mp_params::ParamsFault;
use std::marker::Model;

/// The name of a file, of at most 255 bytes.
#[derive(Drop)]
pub struct Name {
    text: ArrayString<255>,
}

impl Model for Name {
    ghost use Rattle.std.specs.Prelude.{ℕ, List, length, ◌≤◌};

    ghost Value = { List ℕ };

    ghost view = { λ n. n.text.bytes };

    ghost invariant = { λ n. length n.text.bytes ≤ 255 };
}

impl Name {
    /// This name.
    pub fn new(name: &str) -> Name
        requires { length name.now ≤ 255 }
        ensures { result ≡ name.now }
    {
        let Ok(text) = ArrayString::from(name) else {
            unreachable!()
        };
        Name { text }
    }

    /// The name as text.
    pub fn as_str(&self) -> &str
        ensures name { result.now ≡ self.now }
        ensures short { length self.now ≤ 255 }
    {
        self.text.as_str()
    }

    /// The name as it is kept.
    pub fn into_inner(self) -> ArrayString<255>
        ensures { result.bytes ≡ self }
    {
        self.text
    }
}

/// What is wrong with a schedule file.
#[derive(Clone, Copy, Debug, PartialEq, Eq)]
pub enum ScheduleFault {
    /// The first line that doesn't fit, counted from 1.
    BadLine { line: u32 },
    /// The file has more than 4,194,304 bytes.
    TooLong,
}

/// Why a command was refused or broke off. Each has its status and its line on standard error.
#[derive(Drop)]
pub enum Fault {
    /// The words are no command, or they don't fit the parameters.
    Usage,
    /// The parameter file isn't accepted.
    Parameters(ParamsFault),
    /// A file couldn't be read.
    CannotRead { name: Name },
    /// The output file couldn't be written.
    CannotWrite { name: Name },
    /// The table of the image isn't accepted.
    Image(TableFault),
    /// The table of the points isn't accepted.
    Points(TableFault),
    /// The image has fewer eroded positions at a level than the replicates that are wanted.
    TooFewPositions { level: u8, have: u32, want: u32 },
    /// Memory ran out.
    OutOfMemory,
    /// The text for `out` couldn't be written.
    CannotReport,
    /// The schedule isn't accepted.
    Schedule(ScheduleFault),
}
