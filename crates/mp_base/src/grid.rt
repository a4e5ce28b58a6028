// A grid of cells, each of which may have a category. A cell takes one byte.
ghost use Rattle.std.specs.Prelude.{◌≡◌, ◌<◌, ◌≤◌, replicate, slice_set, IfOk, None, IfSome};
ghost use Rattle.mp_base.specs.Grid.{IsBelow, category_of};

use crate::cell::{Cat, CellId};
use crate::counts::Counts;
use crate::shape::Shape;
use mp_number::NoMemory;
use std::alloc::Global;
use std::marker::Model;

// The byte of a cell that has nothing. A category is below it.
const UNKNOWN: u8 = 8;

/// A grid: each cell has a category from 0 to 7, or nothing. It serves training images and
/// simulation grids alike.
#[derive(Drop)]
pub struct Grid {
    shape: Shape,
    bytes: Vec<u8>,
}

impl Model for Grid {
    ghost use Rattle.std.specs.Prelude.{map};
    ghost use Rattle.mp_base.specs.Grid.{Field, field, category_of, FitsShape};

    ghost Value = { Field };

    ghost view = { λ g. field g.shape (map category_of g.bytes.items) };

    ghost invariant = { λ g. FitsShape g.shape g.bytes.items };
}

impl Grid {
    ghost use Rattle.mp_base.specs.Grid.{IsGrid, field, cells_of, cat_of};

    /// A grid of which no cell is known.
    pub fn unknown(alloc: Global, shape: Shape) -> Result<Grid, NoMemory>
        ensures { IfOk result (λ g. g ≡ field shape (replicate (cells_of shape) None)) }
    {
        let bytes = vec![in alloc; UNKNOWN; shape.cells() as usize]?;
        Ok(Grid { shape, bytes })
    }

    /// The sides.
    pub fn shape(&self) -> Shape
        ensures sides { result ≡ self.now.sides }
        ensures grid { IsGrid self.now }
    {
        self.shape
    }

    /// The category of a cell, or nothing exactly where the cell is unknown.
    pub fn get(&self, cell: CellId) -> Option<Cat>
        requires { cell < cells_of self.now.sides }
        ensures value { result ≡ cat_of self.now.cells cell }
        ensures below { IsBelow 8 result }
    {
        let byte = self.bytes[cell.0 as usize];
        if byte < UNKNOWN {
            Some(Cat(byte))
        } else {
            None
        }
    }

    /// Gives a cell a category, or nothing. All other cells stay as they are.
    pub fn set(&mut self, cell: CellId, value: Option<Cat>)
        requires cell { cell < cells_of self.old.sides }
        requires value { IsBelow 8 value }
        ensures { self.new ≡ field self.old.sides (slice_set self.old.cells cell value) }
    {
        self.bytes[cell.0 as usize] = byte_of(value);
    }
}

// The byte of a cell that has this.
fn byte_of(value: Option<Cat>) -> u8
    requires { IsBelow 8 value }
    ensures { category_of result ≡ value }
{
    match value {
        Some(cat) => cat.0,
        None => UNKNOWN,
    }
}

impl Grid {
    ghost use Rattle.std.specs.Prelude.{All, map, length};
    ghost use Rattle.mp_base.specs.Grid.{IsBelow, IsGrid, category_of, cells_of};
    ghost use Rattle.mp_base.specs.Cells.{category_counts};

    /// The same grid once more.
    pub fn copy(&self, alloc: Global) -> Result<Grid, NoMemory>
        ensures { IfOk result (λ g. g ≡ self.now) }
    {
        let bytes = self.bytes.to_vec(alloc)?;
        Ok(Grid {
            shape: self.shape,
            bytes,
        })
    }

    /// The cells as bytes, in rising cell number: a category's index, or a byte from 8 on where a
    /// cell has nothing. For loops that go over whole rows.
    pub fn as_bytes(&self) -> &[u8]
        ensures cells { map category_of result.now ≡ self.now.cells }
        ensures count { length result.now ≡ cells_of self.now.sides }
        ensures grid { IsGrid self.now }
    {
        self.bytes.as_slice()
    }

    /// How many cells have each category.
    pub fn counts(&self, cats: u8) -> Counts
        requires few { cats ≤ 8 }
        requires below { All (IsBelow cats) self.now.cells }
        ensures { result ≡ category_counts cats self.now.cells }
    {
        let mut counts = Counts::zero(cats);
        for number in 0..self.shape().cells() {
            if let Some(cat) = self.get(CellId(number)) {
                counts.add_one(cat);
            }
        }
        counts
    }
}
