// How far a template reaches from a cell, and so around which cells it is inside.
ghost use Rattle.std.specs.Prelude.{◌≡◌, ℕ, ◌<◌, ◌-◌, ◌&&◌, is_some, IsTrue};
ghost use Rattle.mp_base.specs.Grid.{cells_of, cell_number, moved};
ghost use Rattle.ti_scan.specs.Window.{AreMargins, IsSpan, fits, fits_somewhere, has_room};

use mp_base::{CellId, Shape, Vector};

/// How many cells a template needs before and after a cell, along one axis.
#[derive(Clone, Copy)]
pub struct Margin {
    pub before: u32,
    pub after: u32,
}

/// How many cells a template needs around a cell, along each axis.
#[derive(Clone, Copy)]
pub struct Margins {
    pub x: Margin,
    pub y: Margin,
    pub z: Margin,
}

/// Cells one after another, by the number of the first.
#[derive(Clone, Copy)]
pub struct Span {
    pub first: u32,
    pub cells: u32,
}

// The margin that has room for one more offset.
fn widened(margin: Margin, offset: i32) -> Margin
    ensures { (n x : ℕ) → has_room result n x ≡ (has_room margin n x && is_some (moved n x offset)) }
{
    if offset < 0 {
        Margin {
            before: margin.before.max(offset.unsigned_abs()),
            after: margin.after,
        }
    } else {
        Margin {
            before: margin.before,
            after: margin.after.max(offset.unsigned_abs()),
        }
    }
}

/// The margins of a template.
pub fn margins_of(vectors: &[Vector]) -> Margins
    ensures { AreMargins result vectors.now }
{
    let none = Margin {
        before: 0,
        after: 0,
    };
    let mut margins = Margins {
        x: none,
        y: none,
        z: none,
    };
    for v in vectors {
        margins = Margins {
            x: widened(margins.x, v.dx),
            y: widened(margins.y, v.dy),
            z: widened(margins.z, v.dz),
        };
    }
    margins
}

// Whether there is room around coordinate x, on an axis of n cells.
fn has_space(margin: Margin, n: u32, x: u32) -> bool
    ensures { result ≡ has_room margin n x }
{
    margin.before <= x && u64::from(x) + u64::from(margin.after) < u64::from(n)
}

/// Whether the template is inside around a cell.
#[tactic(auto, unfolding(crate::specs::Window::fits))]
pub fn is_within(margins: Margins, shape: Shape, cell: CellId) -> bool
    requires { cell < cells_of shape }
    ensures { result ≡ fits margins shape cell }
{
    let (x, y, z) = shape.place(cell);
    has_space(margins.x, shape.nx, x)
        && has_space(margins.y, shape.ny, y)
        && has_space(margins.z, shape.nz, z)
}

/// The cells from the first to the last around which the template is inside, or none.
pub fn span_of(margins: Margins, shape: Shape) -> Span
    ensures { IsSpan (fits margins shape) (cells_of shape) result.first result.cells }
{
    if !is_anywhere_inside(margins, shape) {
        return Span { first: 0, cells: 0 };
    }
    let first = first_of(margins, shape).0;
    let last = last_of(margins, shape).0;
    Span {
        first,
        cells: last - first + 1,
    }
}

// Whether there is room somewhere.
fn is_anywhere_inside(margins: Margins, shape: Shape) -> bool
    ensures { result ≡ fits_somewhere margins shape }
{
    has_space(margins.x, shape.nx, margins.x.before)
        && has_space(margins.y, shape.ny, margins.y.before)
        && has_space(margins.z, shape.nz, margins.z.before)
}

fn first_of(margins: Margins, shape: Shape) -> CellId
    requires { IsTrue (fits_somewhere margins shape) }
    ensures { result ≡ cell_number shape margins.x.before margins.y.before margins.z.before }
{
    shape.cell(margins.x.before, margins.y.before, margins.z.before)
}

fn last_of(margins: Margins, shape: Shape) -> CellId
    requires { IsTrue (fits_somewhere margins shape) }
    ensures last { result ≡ cell_number shape (shape.nx - 1 - margins.x.after) (shape.ny - 1 - margins.y.after) (shape.nz - 1 - margins.z.after) }
    ensures inside { result < cells_of shape }
{
    shape.cell(
        shape.nx - 1 - margins.x.after,
        shape.ny - 1 - margins.y.after,
        shape.nz - 1 - margins.z.after,
    )
}
