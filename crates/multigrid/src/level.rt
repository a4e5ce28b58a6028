// The spacing of a level, and what follows from it for a cell and for a template.
ghost use Rattle.std.specs.Prelude.{◌≡◌, ◌<◌, ◌≤◌, IfOk, false, true};
ghost use Rattle.mp_base.specs.Grid.{cells_of};
ghost use Rattle.multigrid.specs.Levels.{IsLevel, is_node, spacing as spacing_of, stretched as stretched_by};

use mp_base::{CellId, NoMemory, Shape};
use std::alloc::Global;
use template_order::Template;

/// How many cells the nodes of a level stand apart on each axis.
pub fn spacing(level: u8) -> u32
    requires { IsLevel level }
    ensures spacing { result ≡ spacing_of level }
    ensures some { 1 ≤ result }
    ensures few { result ≤ 128 }
{
    1 << (level - 1)
}

/// Whether a cell is a node of a level.
pub fn on_level(shape: Shape, cell: CellId, level: u8) -> bool
    requires cell { cell < cells_of shape }
    requires level { IsLevel level }
    ensures { result ≡ is_node shape level cell }
{
    let (x, y, z) = shape.place(cell);
    let step = spacing(level);
    x % step == 0 && y % step == 0 && z % step == 0
}

/// The template of a level: each vector as many times as long as the nodes stand apart.
pub fn stretched(alloc: Global, template: &Template, level: u8) -> Result<Template, NoMemory>
    requires whole { template.now.stretched ≡ false }
    requires level { IsLevel level }
    ensures { IfOk result (λ t. t ≡ record { vectors = stretched_by template.now.vectors level; stretched = true }) }
{
    template.scaled(alloc, spacing(level))
}
