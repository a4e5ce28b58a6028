// The node that is nearest to a cell, and the datum that is nearest to a node.
ghost use Rattle.std.specs.Prelude.{◌≡◌, ◌*◌, ◌<◌, ◌≤◌, ◌^◌, All, IfOk, Some, ℕ, length, slice_index};
ghost use Rattle.std.specs.Int.{abs_diff};
ghost use Rattle.mp_base.specs.Grid.{cells_of};
ghost use Rattle.multigrid.specs.Levels.{IsLevel};
ghost use Rattle.hard_data.specs.Nearest.{nearer_of};
ghost use Rattle.hard_data.specs.Start.{distance_in_cells as cell_distance, is_off_nodes as is_off, nearest_cell, nearest_multiple as multiple_nearest, nearest_node as node_nearest};
ghost use Rattle.hard_data.specs.Kept.{cell_in};

use mp_base::{CellId, Grid, NoMemory, Shape};
use multigrid::{on_level, spacing};
use std::alloc::Global;

/// By node: one more than the cell whose datum is the nearest of those that move to it, or 0 where
/// none does. One pass over the cells; a cell with no node has 0 too.
pub fn nearest_cells(alloc: Global, hard: &Grid, level: u8) -> Result<Vec<u32>, NoMemory>
    requires { IsLevel level }
    ensures count { IfOk result (λ slots. length slots.items ≡ cells_of hard.now.sides) }
    ensures inside { IfOk result (λ slots. All (λ slot. slot ≤ cells_of hard.now.sides) slots.items) }
    ensures nearest { IfOk result (λ slots. (v : ℕ) → v < cells_of hard.now.sides → cell_in (slice_index slots.items v) ≡ nearest_cell hard.now level v) }
{
    let shape = hard.shape();
    let mut slots = vec![in alloc; 0; shape.cells() as usize]?;
    for number in 0..shape.cells() {
        let cell = CellId(number);
        if is_off_nodes(hard, cell, level) {
            let node = nearest_node(shape, cell, level);
            let slot = slots[node.0 as usize];
            slots[node.0 as usize] = nearer(shape, node, slot, cell);
        }
    }
    Ok(slots)
}

// Whether a cell has a hard datum and is no node.
fn is_off_nodes(hard: &Grid, cell: CellId, level: u8) -> bool
    requires cell { cell < cells_of hard.now.sides }
    requires level { IsLevel level }
    ensures { result ≡ is_off hard.now level cell }
{
    hard.get(cell).is_some() && !on_level(hard.shape(), cell, level)
}

// The node that is nearest to a cell on each axis.
fn nearest_node(shape: Shape, cell: CellId, level: u8) -> CellId
    requires cell { cell < cells_of shape }
    requires level { IsLevel level }
    ensures node { result ≡ node_nearest shape level cell }
    ensures inside { result < cells_of shape }
{
    let (x, y, z) = shape.place(cell);
    let step = spacing(level);
    let _ = shape.cells();
    shape.cell(
        nearest_multiple(step, shape.nx, x),
        nearest_multiple(step, shape.ny, y),
        nearest_multiple(step, shape.nz, z),
    )
}

// The multiple of the step nearest to a coordinate below the limit.
fn nearest_multiple(step: u32, limit: u32, x: u32) -> u32
    requires some { 1 ≤ step }
    requires few { step ≤ 128 }
    requires x { x < limit }
    requires limit { limit ≤ 2 ^ 20 }
    ensures multiple { result ≡ multiple_nearest step limit x }
    ensures inside { result < limit }
{
    let over = x % step;
    let lower = x - over;
    if 2 * over > step && lower + step < limit {
        lower + step
    } else {
        lower
    }
}

// One more than the nearer to a node of the cell that is kept for it and the cell that comes. The cells
// come in rising number, so of equally near ones the first stays.
fn nearer(shape: Shape, node: CellId, slot: u32, cell: CellId) -> u32
    requires node { node < cells_of shape }
    requires slot { slot ≤ cells_of shape }
    requires cell { cell < cells_of shape }
    ensures nearer { cell_in result ≡ Some (nearer_of (cell_distance shape node) (cell_in slot) cell) }
    ensures inside { result ≤ cells_of shape }
{
    let distance = distance_in_cells(shape, node, cell);
    match slot.checked_sub(1) {
        Some(kept) if distance_in_cells(shape, node, CellId(kept)) <= distance => slot,
        _ => cell.0 + 1,
    }
}

// The squared distance of two cells.
fn distance_in_cells(shape: Shape, a: CellId, b: CellId) -> u64
    requires a { a < cells_of shape }
    requires b { b < cells_of shape }
    ensures { result ≡ cell_distance shape a b }
{
    let (ax, ay, az) = shape.place(a);
    let (bx, by, bz) = shape.place(b);
    let _ = shape.cells();
    squared(ax, bx) + (squared(ay, by) + squared(az, bz))
}

// The square of a difference.
fn squared(a: u32, b: u32) -> u64
    requires a { a ≤ 2 ^ 20 }
    requires b { b ≤ 2 ^ 20 }
    ensures value { result ≡ abs_diff a b * abs_diff a b }
    ensures few { result ≤ 2 ^ 40 }
{
    let apart = u64::from(a.abs_diff(b));
    apart * apart
}
