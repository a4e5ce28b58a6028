// Reading of whole tables.
ghost use Rattle.std.specs.Prelude.{◌≡◌, ◌≢◌, ◌≤◌, AllPairs, Contains};
ghost use Rattle.gslib_grid.specs.Table.{Gives, table_of, wanted_of};

use crate::fault::TableError;
use crate::progress::Progress;
use crate::row::{Rows, Table};
use crate::want::{Want, Wanted};
use mp_base::Codes;
use mp_text::next_line;
use std::alloc::Global;

/// The table that a file's bytes are, or the first fault of its first line with a fault. What is
/// missing at the file's end counts only where no line has a fault.
///
/// The form is the simplified GEO-EAS form of GSLIB (Deutsch and Journel): a title, a line that begins
/// with the number of variables, a line for each variable's name, and rows of numbers.
pub fn read_table(
    alloc: Global,
    bytes: &[u8],
    want: &Want,
    codes: &Codes,
) -> Result<Table, TableError>
    requires column { 1 ≤ (wanted_of want.now).category }
    requires differ { AllPairs (λ a b. a ≢ b) codes.now.categories }
    requires missing { ¬ (Contains codes.now.categories codes.now.missing) }
    ensures { Gives result (table_of want.now codes.now bytes.now) }
{
    let wanted = Wanted::of(want);
    let room = (wanted.least as usize).min(bytes.len() / 2 + 1);
    let mut progress = Progress::new(Rows::with_capacity(alloc, room)?);
    let mut rest = bytes;
    while let Some((line, behind)) = next_line(rest) {
        progress.take_line(&wanted, codes, line)?;
        rest = behind;
    }
    Ok(progress.end(&wanted)?)
}
