// Rows, and the table that they make.
ghost use Rattle.std.specs.Prelude.{◌≡◌, ◌<◌, ◌^◌, [], ◌∷◌, ◌++◌, length, slice_get, option_and_then, IfOk, IfSome, OnOk, OnErr};
ghost use Rattle.mp_base.specs.Grid.{IsBelow};

use crate::held::{BareRow, PointRow, has_coordinate, push_bare};
use mp_base::{Cat, NoMemory};
use std::alloc::Global;
use std::marker::Model;
use std::slice;

/// A row of a table: the line that it stands on, from 1; its coordinates in millionths, where they were
/// read; and its category, or nothing for the missing code.
#[derive(Clone, Copy, Debug, PartialEq, Eq)]
pub struct Row {
    pub line: u32,
    pub x: Option<i64>,
    pub y: Option<i64>,
    pub z: Option<i64>,
    pub cat: Option<Cat>,
}

/// At most 2^28 rows, each category at most 7. A row takes 8 bytes as long as no row has a coordinate, and
/// from the first one on that has some it takes 40.
#[derive(Drop)]
pub struct Rows {
    bare: Vec<BareRow>,
    points: Vec<PointRow>,
}

impl Model for Rows {
    ghost use Rattle.std.specs.Prelude.{List};
    ghost use Rattle.gslib_grid.specs.declared.row.Row.{Row};

    ghost Value = { List Row };

    ghost use Rattle.gslib_grid.specs.Rows.{AreRows};
    ghost use Rattle.gslib_grid.specs.Held.{rows_held};

    ghost view = { λ r. rows_held r.bare.items r.points.items };

    ghost invariant = { λ r. AreRows (rows_held r.bare.items r.points.items) };
}

impl Rows {
    ghost use Rattle.gslib_grid.specs.Rows.{AreRows};

    /// No row.
    pub fn new(alloc: Global) -> Rows
        ensures { result ≡ [] }
    {
        Rows {
            bare: Vec::new(alloc),
            points: Vec::new(alloc),
        }
    }

    /// No row, and room for so many without coordinates.
    pub fn with_capacity(alloc: Global, rows: usize) -> Result<Rows, NoMemory>
        ensures { IfOk result (λ rows. rows ≡ []) }
    {
        Ok(Rows {
            bare: Vec::with_capacity(alloc, rows)?,
            points: Vec::new(alloc),
        })
    }

    /// How many rows there are.
    pub fn len(&self) -> usize
        ensures len { result ≡ length self.now }
        ensures kept { AreRows self.now }
    {
        self.bare.len() + self.points.len()
    }

    /// The row of this number, from 0; nothing exactly where there is none.
    pub fn get(&self, number: usize) -> Option<Row>
        ensures row { result ≡ slice_get self.now number }
        ensures below { IfSome result (λ row. IsBelow 8 row.cat) }
    {
        if number < self.bare.len() {
            return Some(self.bare[number].row());
        }
        let held = self.points.get(number - self.bare.len())?;
        Some(held.row())
    }

    /// The category of the row of this number, from 0; nothing exactly where there is no such row or it
    /// has the missing code.
    pub fn category(&self, number: usize) -> Option<Cat>
        ensures category { result ≡ option_and_then (λ row. row.cat) (slice_get self.now number) }
        ensures below { IsBelow 8 result }
    {
        self.get(number)?.cat
    }

    /// Appends a row. After an error all is as it was.
    pub fn push(&mut self, row: Row) -> Result<(), NoMemory>
        requires few { length self.old < 2 ^ 28 }
        requires below { IsBelow 8 row.cat }
        ensures ok { OnOk result (self.new ≡ self.old ++ row ∷ []) }
        ensures err { OnErr result (self.new ≡ self.old) }
    {
        if self.points.is_empty() && !has_coordinate(&row) {
            push_bare(&mut self.bare, row.line, row.cat)?;
            return Ok(());
        }
        self.points
            .extend_from_slice(slice::from_ref(&PointRow::of(&row)))?;
        Ok(())
    }
}

/// A table that was read: the number of its lines, and its rows.
#[derive(Drop)]
pub struct Table {
    pub lines: u32,
    pub rows: Rows,
}
