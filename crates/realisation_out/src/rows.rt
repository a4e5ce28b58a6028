// The rows of a realisation.
ghost use Rattle.std.specs.Prelude.{◌≡◌, ◌++◌, ◌<◌, ◌≤◌, All, IsSome, OnErr, OnOk, length, slice_range, take};
ghost use Rattle.mp_base.specs.Grid.{IsBelow};
ghost use Rattle.realisation_out.specs.Text.{rows_text, cell_line};

use mp_base::{Cat, CellId, Codes, Grid, NoMemory, push_whole};

/// Appends the code of each cell's category, in rising cell number, a line each. Every cell has a
/// category, and each category has a code. Without memory for it the vector stays as it was.
pub fn push_rows(to: &mut Vec<u8>, grid: &Grid, codes: &Codes) -> Result<(), NoMemory>
    requires known { All IsSome grid.now.cells }
    requires below { All (IsBelow (length codes.now.categories)) grid.now.cells }
    ensures text { OnOk result (to.new.items ≡ to.old.items ++ rows_text codes.now.categories grid.now.cells) }
    ensures err { OnErr result (to.new.items ≡ to.old.items) }
{
    push_rows_between(to, grid, codes, 0, grid.shape().cells())
}

/// The same of the cells from one number up to another, which is left out, or up to the last cell. So the
/// rows of a large grid can be made part by part.
pub fn push_rows_between(
    to: &mut Vec<u8>,
    grid: &Grid,
    codes: &Codes,
    from: u32,
    until: u32,
) -> Result<(), NoMemory>
    requires known { All IsSome grid.now.cells }
    requires below { All (IsBelow (length codes.now.categories)) grid.now.cells }
    requires order { from ≤ until }
    ensures text { OnOk result (to.new.items ≡ to.old.items ++ rows_text codes.now.categories (slice_range grid.now.cells from until)) }
    ensures err { OnErr result (to.new.items ≡ to.old.items) }
{
    let before = to.len();
    let pushed = push_cells(to, grid, codes, from, until);
    if pushed.is_err() {
        to.truncate(before);
    }
    pushed
}

// The same, but without memory for it some rows may have been appended.
fn push_cells(
    to: &mut Vec<u8>,
    grid: &Grid,
    codes: &Codes,
    from: u32,
    until: u32,
) -> Result<(), NoMemory>
    requires below { All (IsBelow (length codes.now.categories)) grid.now.cells }
    requires order { from ≤ until }
    ensures text { OnOk result (to.new.items ≡ to.old.items ++ rows_text codes.now.categories (slice_range grid.now.cells from until)) }
    ensures err { OnErr result (take (length to.old.items) to.new.items ≡ to.old.items) }
{
    let end = until.min(grid.shape().cells());
    for number in from..end {
        push_cell(to, grid.get(CellId(number)), codes)?;
    }
    Ok(())
}

// The row of a cell.
fn push_cell(to: &mut Vec<u8>, cat: Option<Cat>, codes: &Codes) -> Result<(), NoMemory>
    requires { IsBelow (length codes.now.categories) cat }
    ensures text { OnOk result (to.new.items ≡ to.old.items ++ cell_line codes.now.categories cat) }
    ensures err { OnErr result (take (length to.old.items) to.new.items ≡ to.old.items) }
{
    if let Some(cat) = cat {
        push_whole(to, i128::from(codes.categories.as_slice()[cat.0 as usize]))?;
        to.push(b'\n')?;
    }
    Ok(())
}
