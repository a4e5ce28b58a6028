// The nodes of a level.
ghost use Rattle.std.specs.Prelude.{◌≡◌, ◌+◌, ◌*◌, ◌<◌, ◌≤◌, ◌++◌, All, IfOk, OnOk, length};
ghost use Rattle.std.specs.Int.{div_ceil};
ghost use Rattle.std.specs.List.Sorted.{IsStrictlyIncreasing};
ghost use Rattle.mp_base.specs.Grid.{cells_of};
ghost use Rattle.multigrid.specs.Levels.{IsLevel, nodes_of as nodes_of_level};
ghost use Rattle.multigrid.specs.Rows.{first_in_row, first_rows, nodes_of_rows, rows_of_planes};

use crate::level::spacing;
use mp_base::{CellId, NoMemory, Shape};
use std::alloc::Global;

/// How many nodes a level has.
pub fn node_count(shape: Shape, level: u8) -> u32
    requires { IsLevel level }
    ensures { result ≡ length (nodes_of_level shape level) }
{
    let step = spacing(level);
    shape.nx.div_ceil(step) * (shape.ny.div_ceil(step) * shape.nz.div_ceil(step))
}

/// The nodes of a level, in rising cell number. No other cell is looked at.
pub fn nodes_of(alloc: Global, shape: Shape, level: u8) -> Result<Vec<CellId>, NoMemory>
    requires { IsLevel level }
    ensures nodes { IfOk result (λ nodes. nodes.items ≡ nodes_of_level shape level) }
    ensures rising { IfOk result (λ nodes. IsStrictlyIncreasing nodes.items) }
    ensures inside { IfOk result (λ nodes. All (λ c. c < cells_of shape) nodes.items) }
{
    let mut nodes = Vec::with_capacity(alloc, node_count(shape, level) as usize)?;
    push_planes(&mut nodes, shape, spacing(level))?;
    Ok(nodes)
}

fn push_planes(nodes: &mut Vec<CellId>, shape: Shape, step: u32) -> Result<(), NoMemory>
    requires { 1 ≤ step }
    ensures { OnOk result (nodes.new.items ≡ nodes.old.items ++ nodes_of_rows shape step (rows_of_planes shape step (div_ceil shape.nz step))) }
{
    for i in 0..shape.nz.div_ceil(step) {
        push_rows(nodes, shape, step, i * step)?;
    }
    Ok(())
}

// Adds the nodes of the plane at z.
fn push_rows(nodes: &mut Vec<CellId>, shape: Shape, step: u32, z: u32) -> Result<(), NoMemory>
    requires step { 1 ≤ step }
    requires z { z < shape.nz }
    ensures { OnOk result (nodes.new.items ≡ nodes.old.items ++ nodes_of_rows shape step (first_rows shape step z (div_ceil shape.ny step))) }
{
    for i in 0..shape.ny.div_ceil(step) {
        push_row(nodes, shape, step, i * step, z)?;
    }
    Ok(())
}

// Adds the nodes of the row at y and z.
fn push_row(
    nodes: &mut Vec<CellId>,
    shape: Shape,
    step: u32,
    y: u32,
    z: u32,
) -> Result<(), NoMemory>
    requires step { 1 ≤ step }
    requires y { y < shape.ny }
    requires z { z < shape.nz }
    ensures { OnOk result (nodes.new.items ≡ nodes.old.items ++ first_in_row shape step (y + shape.ny * z) (div_ceil shape.nx step)) }
{
    for i in 0..shape.nx.div_ceil(step) {
        nodes.push(shape.cell(i * step, y, z))?;
    }
    Ok(())
}
