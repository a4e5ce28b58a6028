// The sides of a grid, and where its cells are.
ghost use Rattle.std.specs.Prelude.{◌≡◌, ◌↔◌, ◌<◌, IfOk, IfSome, IsOk};
ghost use Rattle.mp_base.specs.Grid.{moved as coordinate};

use crate::cell::{CellId, Vector};
use std::marker::Model;

/// A side is 0, or there are more than 2^20 cells.
#[derive(Clone, Copy, Debug, PartialEq, Eq)]
pub struct BadShape;

/// The sides of a grid in cells, each at least 1, with at most 2^20 cells in all.
#[derive(Clone, Copy, Debug, PartialEq, Eq)]
pub struct Shape {
    pub nx: u32,
    pub ny: u32,
    pub nz: u32,
}

impl Model for Shape {
    ghost use Rattle.mp_base.specs.Grid.{Sides, IsShape};

    ghost Value = { Sides };

    ghost view = { λ s. record { nx = s.nx; ny = s.ny; nz = s.nz } };

    ghost invariant = { λ s. IsShape (record { nx = s.nx; ny = s.ny; nz = s.nz }) };

    ghost inverse = { λ s. record { nx = s.nx; ny = s.ny; nz = s.nz } };
}

impl Shape {
    ghost use Rattle.mp_base.specs.Grid.{Sides, IsShape, cells_of, cell_number, cell_at, x_of, y_of, z_of};

    /// The shape with these sides, refused exactly where a side is 0 or there are more than 2^20
    /// cells.
    pub fn new(nx: u32, ny: u32, nz: u32) -> Result<Shape, BadShape>
        ensures fits { IsOk result ↔ IsShape (record { nx = nx; ny = ny; nz = nz }) }
        ensures sides { IfOk result (λ s. s ≡ record { nx = nx; ny = ny; nz = nz }) }
    {
        let (x, y, z) = (u128::from(nx), u128::from(ny), u128::from(nz));
        if nx == 0 || ny == 0 || nz == 0 || x * (y * z) > 1 << 20 {
            return Err(BadShape);
        }
        Ok(Shape { nx, ny, nz })
    }

    /// How many cells there are.
    pub fn cells(self) -> u32
        ensures count { result ≡ cells_of self }
        ensures shape { IsShape self }
    {
        self.nx * (self.ny * self.nz)
    }

    /// The coordinates of a cell, each counted from 0.
    pub fn place(self, cell: CellId) -> (u32, u32, u32)
        requires { cell < cells_of self }
        ensures x { result.0 ≡ x_of self cell }
        ensures y { result.1 ≡ y_of self cell }
        ensures z { result.2 ≡ z_of self cell }
        ensures inside { (result.0 < self.nx) × (result.1 < self.ny) × (result.2 < self.nz) }
    {
        let c = cell.0;
        (c % self.nx, c / self.nx % self.ny, c / self.nx / self.ny)
    }

    /// The cell at these coordinates.
    #[tactic(auto, using(crate::proofs::Numbers::row_below))]
    pub fn cell(self, x: u32, y: u32, z: u32) -> CellId
        requires x { x < self.nx }
        requires y { y < self.ny }
        requires z { z < self.nz }
        ensures number { result ≡ cell_number self x y z }
        ensures inside { result < cells_of self }
    {
        CellId(x + self.nx * (y + self.ny * z))
    }

    /// The cell at a vector from another, or nothing exactly where that place is outside.
    #[tactic(auto, unfolding(crate::specs::Grid::cell_at))]
    pub fn step(self, cell: CellId, v: Vector) -> Option<CellId>
        requires { cell < cells_of self }
        ensures cell { result ≡ cell_at self cell v }
        ensures inside { IfSome result (λ c. c < cells_of self) }
    {
        let (x, y, z) = self.place(cell);
        let Some(x) = moved(self.nx, x, v.dx) else {
            return None;
        };
        let Some(y) = moved(self.ny, y, v.dy) else {
            return None;
        };
        let Some(z) = moved(self.nz, z, v.dz) else {
            return None;
        };
        Some(self.cell(x, y, z))
    }
}

// The coordinate at an offset from another, on an axis with so many cells.
fn moved(limit: u32, at: u32, by: i32) -> Option<u32>
    requires { at < limit }
    ensures value { result ≡ coordinate limit at by }
    ensures inside { IfSome result (λ x. x < limit) }
{
    let place = i64::from(at) + i64::from(by);
    if place < 0 || place >= i64::from(limit) {
        return None;
    }
    Some(place as u32)
}
