// Points put into the cells of a grid.
ghost use Rattle.std.specs.Prelude.{◌≡◌, ◌+◌, ◌<◌, ◌≤◌, ◌^◌, IfOk, IfSome, Some, is_some, length, slice_get};
ghost use Rattle.std.specs.List.{count_by};
ghost use Rattle.mp_base.specs.Grid.{cells_of, field};
ghost use Rattle.hard_data.specs.Nearest.{nearer_of};
ghost use Rattle.hard_data.specs.Points.{HasSizes, cell_for as cell_for_row, cell_of_row, data_of, distance_to_centre as centre_distance, is_skipped, placed_of};
ghost use Rattle.hard_data.specs.Kept.{RowsAreKept};

use crate::axis::Axis;
use gslib_grid::{Row, Rows, Table};
use mp_base::{CellId, Frame, Grid, NoMemory};
use std::alloc::Global;

/// The cells that got a datum from points.
#[derive(Drop)]
pub struct Placed {
    /// The data of the grid.
    pub cells: Grid,
    /// How many points there are.
    pub rows: u32,
    /// How many cells got a datum.
    pub used: u32,
    /// How many points are outside the grid or have no category.
    pub skipped: u32,
}

// The cell that a row may give a datum, or nothing exactly where the row has no category or is outside.
fn cell_for(frame: &Frame, row: &Row) -> Option<CellId>
    requires sizes { HasSizes frame.now }
    ensures cell { result ≡ cell_for_row frame.now row.now }
    ensures inside { IfSome result (λ cell. cell < cells_of frame.now.shape) }
{
    if row.cat.is_none() {
        return None;
    }
    cell_of(frame, row)
}

// The cell that a row's point is in, or nothing exactly where that is outside.
#[tactic(auto, unfolding(crate::specs::Points::cell_of_row))]
fn cell_of(frame: &Frame, row: &Row) -> Option<CellId>
    requires sizes { HasSizes frame.now }
    ensures cell { result ≡ cell_of_row frame.now row.now }
    ensures inside { IfSome result (λ cell. cell < cells_of frame.now.shape) }
{
    let x = Axis::x(frame).cell(row.x)?;
    let y = Axis::y(frame).cell(row.y)?;
    let z = Axis::z(frame).cell(row.z)?;
    Some(frame.shape.cell(x, y, z))
}

// The squared distance of a row's point to the centre of its cell, in millionths.
fn distance_to_centre(frame: &Frame, row: &Row) -> u128
    requires sizes { HasSizes frame.now }
    ensures { result ≡ centre_distance frame.now row.now }
{
    let x = Axis::x(frame).apart(row.x);
    let y = Axis::y(frame).apart(row.y);
    let z = Axis::z(frame).apart(row.z);
    x * x + (y * y + z * z)
}

// The number of no row.
const NO_ROW: u32 = u32::MAX;

// For each cell the number of the row that gives it its datum; and how many rows are skipped.
#[derive(Drop)]
struct NearestRows {
    numbers: Vec<u32>,
    skipped: u32,
}

// One pass over the rows.
fn keep_nearest(alloc: Global, frame: &Frame, rows: &Rows) -> Result<NearestRows, NoMemory>
    requires { HasSizes frame.now }
    ensures numbers { IfOk result (λ kept. RowsAreKept frame.now rows.now (length rows.now) kept.numbers.items) }
    ensures skipped { IfOk result (λ kept. kept.skipped ≡ count_by (is_skipped frame.now) rows.now) }
{
    let mut numbers = vec![in alloc; NO_ROW; frame.shape.cells() as usize]?;
    let mut skipped = 0;
    for number in 0..rows.len() as u32 {
        let Some(row) = rows.get(number as usize) else {
            unreachable!()
        };
        if !place(&mut numbers, frame, rows, number, &row) {
            skipped += 1;
        }
    }
    Ok(NearestRows { numbers, skipped })
}

// Puts a row into its cell, where it has one; there the nearer row stays.
fn place(numbers: &mut [u32], frame: &Frame, rows: &Rows, number: u32, row: &Row) -> bool
    requires sizes { HasSizes frame.now }
    requires row { slice_get rows.now number ≡ Some row.now }
    requires kept { RowsAreKept frame.now rows.now number numbers.old }
    ensures kept { RowsAreKept frame.now rows.now (number + 1) numbers.new }
    ensures skipped { result ≡ is_some (cell_for_row frame.now row.now) }
{
    let Some(cell) = cell_for(frame, row) else {
        return false;
    };
    let before = numbers[cell.0 as usize];
    numbers[cell.0 as usize] = nearer(frame, rows, before, number, row);
    true
}

// Of the row that is kept and the row that comes the number of the nearer one. The rows come in order,
// so of equally near ones the first stays.
fn nearer(frame: &Frame, rows: &Rows, before: u32, number: u32, row: &Row) -> u32
    requires sizes { HasSizes frame.now }
    requires row { slice_get rows.now number ≡ Some row.now }
    ensures { slice_get rows.now result ≡ Some (nearer_of (centre_distance frame.now) (slice_get rows.now before) row.now) }
{
    match rows.get(before as usize) {
        Some(kept) if distance_to_centre(frame, &kept) <= distance_to_centre(frame, row) => before,
        _ => number,
    }
}

// The data of the rows that are kept for the cells, and how many cells are known.
fn data_of_rows(
    alloc: Global,
    frame: &Frame,
    rows: &Rows,
    numbers: &[u32],
) -> Result<(Grid, u32), NoMemory>
    requires { RowsAreKept frame.now rows.now (length rows.now) numbers.now }
    ensures cells { IfOk result (λ p. p.0 ≡ field frame.now.shape (data_of frame.now rows.now)) }
    ensures used { IfOk result (λ p. p.1 ≡ count_by is_some (data_of frame.now rows.now)) }
{
    let mut grid = Grid::unknown(alloc, frame.shape)?;
    let mut used = 0;
    for (cell, number) in numbers.iter().enumerate() {
        let datum = rows.category(*number as usize);
        grid.set(CellId(cell as u32), datum);
        if datum.is_some() {
            used += 1;
        }
    }
    Ok((grid, used))
}

/// Puts points into the cells of a grid. On each axis a point is in the cell whose centre is nearest, of
/// two the upper one. A row that is outside the grid, or has the missing code, is skipped. Of the other
/// rows of a cell the nearest to its centre gives the cell its datum, of equally near ones the first.
#[tactic(auto, unfolding(crate::specs::Points::placed_of))]
pub fn points_to_cells(alloc: Global, table: &Table, frame: &Frame) -> Result<Placed, NoMemory>
    requires sizes { HasSizes frame.now }
    ensures { IfOk result (λ placed. placed ≡ placed_of frame.now table.now.rows) }
{
    let rows = &table.rows;
    let nearest = keep_nearest(alloc, frame, rows)?;
    let (cells, used) = data_of_rows(alloc, frame, rows, nearest.numbers.as_slice())?;
    Ok(Placed {
        cells,
        rows: rows.len() as u32,
        used,
        skipped: nearest.skipped,
    })
}
