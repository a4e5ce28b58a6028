// Cells, categories, and the vectors between cells.
use std::marker::Model;

/// A category, by its index in the list of categories, from 0.
#[derive(Clone, Copy, Debug, Default, PartialEq, Eq)]
pub struct Cat(pub u8);

impl Model for Cat {
    ghost use Rattle.std.specs.Prelude.{ℕ};

    ghost Value = { ℕ };

    ghost view = { λ c. c.0 };

    ghost inverse = { λ n. record { 0 = n } };
}

/// A cell of a grid, by its number: x runs fastest, then y, then z.
#[derive(Clone, Copy, Debug, Default, PartialEq, Eq)]
pub struct CellId(pub u32);

impl Model for CellId {
    ghost use Rattle.std.specs.Prelude.{ℕ};

    ghost Value = { ℕ };

    ghost view = { λ c. c.0 };

    ghost inverse = { λ n. record { 0 = n } };
}

/// A vector from one cell to another, in cells along each axis.
#[derive(Clone, Copy, Debug, Default, PartialEq, Eq)]
pub struct Vector {
    pub dx: i32,
    pub dy: i32,
    pub dz: i32,
}

/// A cell and the category that it was given.
#[derive(Clone, Copy, Debug, PartialEq, Eq)]
pub struct Entry {
    pub cell: CellId,
    pub cat: Cat,
}
