// The start of a level.
ghost use Rattle.std.specs.Prelude.{◌≡◌, ◌<◌, ◌≤◌, ◌++◌, All, IfOk, IfSome, OnOk, map, slice_set, option_and_then, option_to_list};
ghost use Rattle.std.specs.List.Sorted.{IsStrictlyIncreasing};
ghost use Rattle.mp_base.specs.Grid.{cells_of, field};
ghost use Rattle.multigrid.specs.Levels.{IsLevel};
ghost use Rattle.hard_data.specs.Start.{datum_or_value as value_or_datum, move_from, move_to as moved_to, moves_of, nearest_cell, node_start, start_of, values_after};
ghost use Rattle.hard_data.specs.Kept.{cell_in};

use crate::nearest::nearest_cells;
use mp_base::{Cat, CellId, Entry, Grid, NoMemory};
use multigrid::nodes_of;
use std::alloc::Global;

/// A hard datum that stands at a node for one level: from its own cell to the node.
#[derive(Clone, Copy, Debug, PartialEq, Eq)]
pub struct Move {
    pub from: CellId,
    pub to: CellId,
    pub cat: Cat,
}

/// What is known when a level begins, and the data that were moved for that, in rising order of their
/// nodes.
#[derive(Drop)]
pub struct Start {
    pub grid: Grid,
    pub moves: Vec<Move>,
}

/// The start of a level, from the hard data and the values that coarser levels simulated. Only nodes
/// are known: by their own hard datum, else by their value, else by the nearest of the data that move
/// to them (the relocation of data to a coarse grid of Strebelle 2002, with rules of its own). A datum
/// whose cell is no node moves to the nearest node on each axis. All other data are put aside.
pub fn relocate(alloc: Global, hard: &Grid, values: &Grid, level: u8) -> Result<Start, NoMemory>
    requires sides { values.now.sides ≡ hard.now.sides }
    requires level { IsLevel level }
    ensures grid { IfOk result (λ start. start.grid ≡ start_of hard.now values.now level) }
    ensures moves { IfOk result (λ start. start.moves.items ≡ moves_of hard.now values.now level) }
    ensures rising { IfOk result (λ start. IsStrictlyIncreasing (map (λ m. m.to) start.moves.items)) }
{
    let slots = nearest_cells(alloc, hard, level)?;
    let nodes = nodes_of(alloc, hard.shape(), level)?;
    let mut grid = Grid::unknown(alloc, hard.shape())?;
    let mut moves = Vec::new(alloc);
    for node in nodes.as_slice() {
        let slot = slots[node.0 as usize];
        set_node(&mut grid, &mut moves, hard, values, level, *node, slot)?;
    }
    Ok(Start { grid, moves })
}

// Sets what is known at a node, and notes the move to it.
fn set_node(
    grid: &mut Grid,
    moves: &mut Vec<Move>,
    hard: &Grid,
    values: &Grid,
    level: u8,
    node: CellId,
    slot: u32,
) -> Result<(), NoMemory>
    requires node { node < cells_of hard.now.sides }
    requires values { values.now.sides ≡ hard.now.sides }
    requires grid { grid.old.sides ≡ hard.now.sides }
    requires slot { cell_in slot ≡ nearest_cell hard.now level node }
    requires inside { slot ≤ cells_of hard.now.sides }
    ensures grid { OnOk result (grid.new ≡ field grid.old.sides (slice_set grid.old.cells node (node_start hard.now values.now level node))) }
    ensures moves { OnOk result (moves.new.items ≡ moves.old.items ++ option_to_list (moved_to hard.now values.now level node)) }
{
    let known = datum_or_value(hard, values, node);
    if known.is_some() {
        grid.set(node, known);
        return Ok(());
    }
    match move_to(hard, node, slot) {
        Some(datum) => {
            grid.set(node, Some(datum.cat));
            moves.push(datum)?;
        }
        None => grid.set(node, None),
    }
    Ok(())
}

// The hard datum of a cell, or else its value.
fn datum_or_value(hard: &Grid, values: &Grid, cell: CellId) -> Option<Cat>
    requires cell { cell < cells_of hard.now.sides }
    requires values { values.now.sides ≡ hard.now.sides }
    ensures value { result ≡ value_or_datum hard.now values.now cell }
    ensures below { IfSome result (λ k. k < 8) }
{
    let datum = hard.get(cell);
    if datum.is_some() {
        return datum;
    }
    values.get(cell)
}

// The move to a node of the datum whose cell is kept for it.
fn move_to(hard: &Grid, node: CellId, slot: u32) -> Option<Move>
    requires slot { slot ≤ cells_of hard.now.sides }
    ensures datum { result ≡ option_and_then (move_from hard.now node) (cell_in slot) }
    ensures below { IfSome result (λ m. m.cat < 8) }
{
    let from = CellId(slot.checked_sub(1)?);
    let cat = hard.get(from)?;
    Some(Move {
        from,
        to: node,
        cat,
    })
}

/// Sets the cells of a level's log in the values, and gives up the data that were moved for the level:
/// they are part of no value. It takes no memory.
pub fn take_away(moves: Vec<Move>, log: &[Entry], values: &mut Grid)
    requires inside { All (λ e. e.cell < cells_of values.old.sides) log.now }
    requires cats { All (λ e. e.cat ≤ 7) log.now }
    ensures { values.new ≡ values_after values.old log.now }
{
    drop(moves);
    for entry in log {
        values.set(entry.cell, Some(entry.cat));
    }
}
