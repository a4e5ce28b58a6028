// Training images from tables.
ghost use Rattle.std.specs.Prelude.{◌≡◌, IfOk, length, map};
ghost use Rattle.mp_base.specs.Grid.{cells_of, field};

use crate::row::Table;
use mp_base::{CellId, Grid, NoMemory, Shape};
use std::alloc::Global;

/// The grid whose cells, in rising number, have the categories of the rows in order. A cell whose row
/// has the missing code has none.
pub fn image_from_table(alloc: Global, table: &Table, shape: Shape) -> Result<Grid, NoMemory>
    requires { length table.now.rows ≡ cells_of shape }
    ensures { IfOk result (λ g. g ≡ field shape (map (λ row. row.cat) table.now.rows)) }
{
    let mut grid = Grid::unknown(alloc, shape)?;
    let rows = &table.rows;
    for number in 0..rows.len() {
        grid.set(CellId(number as u32), rows.category(number));
    }
    Ok(grid)
}
