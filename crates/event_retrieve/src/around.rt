// The known cells around many nodes of one grid.
ghost use Rattle.std.specs.Prelude.{◌≡◌, ◌<◌, ◌≤◌, IfOk, IfSome, is_some, length, true};
ghost use Rattle.mp_base.specs.Grid.{cells_of, cat_at};
ghost use Rattle.ti_scan.specs.Event.{IsEvent};
ghost use Rattle.ti_scan.specs.Window.{is_inside};
ghost use Rattle.event_retrieve.specs.Around.{AreFrom, cell_from, moved_on};
ghost use Rattle.event_retrieve.specs.Plan.{data_by};

use crate::known::{event_on, push_found};
use mp_base::{CellId, Grid, NoMemory, Shape, Vector};
use std::alloc::Global;
use std::marker::Model;
use ti_scan::{Event, Ground, ground_of, is_within};

/// The template cells around the nodes of a grid. Around a node with room for the whole template
/// each of them is found by one addition.
#[derive(Drop)]
pub struct Surroundings<'a> {
    ground: Ground<'a>,
    // The cells at the vectors from the first cell with room for the whole template, if there is
    // one.
    cells: Vec<CellId>,
}

impl<'a> Model for Surroundings<'a> {
    ghost use Rattle.std.specs.Prelude.{◌<◌};
    ghost use Rattle.event_retrieve.specs.Around.{Around, AreFrom};

    ghost Value = { Around };

    ghost view = { λ a. record { sides = a.ground.image.now.sides; template = a.ground.vectors.now } };

    ghost invariant = { λ a. 0 < a.ground.span.cells → AreFrom a.ground.image.now.sides a.ground.vectors.now a.ground.span.first a.cells.items };
}

impl<'a> Surroundings<'a> {
    /// The cells at these vectors around the cells of a grid.
    pub fn new(
        alloc: Global,
        grid: &'a Grid,
        vectors: &'a [Vector],
    ) -> Result<Surroundings<'a>, NoMemory>
        ensures { IfOk result (λ a. a ≡ record { sides = grid.now.sides; template = vectors.now }) }
    {
        let ground = ground_of(grid, vectors);
        let cells = cells_from_first(alloc, &ground)?;
        Ok(Surroundings { ground, cells })
    }

    /// The known template cells around a cell, in template order, of a grid with these sides.
    pub fn event_on(&self, grid: &Grid, cell: CellId) -> Event
        requires sides { grid.now.sides ≡ self.now.sides }
        requires cell { cell < cells_of grid.now.sides }
        requires short { length self.now.template ≤ 64 }
        ensures data_ { result ≡ data_by (λ _ v. cat_at grid.now cell v) self.now.template }
        ensures event { IsEvent (length self.now.template) result }
    {
        if is_within(self.ground.margins, grid.shape(), cell) {
            event_within(&self.ground, self.cells.as_slice(), grid, cell)
        } else {
            event_on(grid, self.ground.vectors, cell)
        }
    }

    /// One cell of the grid, as the centre.
    pub fn centre(&self, cell: CellId) -> Centre<'_>
        requires { cell < cells_of self.now.sides }
        ensures { result ≡ record { around = self.now; cell = cell } }
    {
        let cells = self.cells.as_slice();
        Centre {
            shape: self.ground.image.shape(),
            vectors: self.ground.vectors,
            cells,
            cell,
            further: further_from_first(&self.ground, cells, cell),
        }
    }
}

/// One cell of a grid, from which the cells at the vectors are asked for one by one.
#[derive(Drop)]
pub struct Centre<'a> {
    shape: Shape,
    vectors: &'a [Vector],
    // The cells at the vectors from the first cell with room for the whole template.
    cells: &'a [CellId],
    cell: CellId,
    // How much further the cells at the vectors from this cell are, if there is room for them all.
    further: Option<u32>,
}

impl<'a> Model for Centre<'a> {
    ghost use Rattle.std.specs.Prelude.{◌<◌, IfSome};
    ghost use Rattle.mp_base.specs.Grid.{IsShape, cells_of};
    ghost use Rattle.event_retrieve.specs.Around.{Centre, AreFrom, moved_on};

    ghost Value = { Centre };

    ghost view = { λ c. record { around = record { sides = c.shape; template = c.vectors.now }; cell = c.cell } };

    ghost invariant = { λ c. IsShape c.shape × (c.cell < cells_of c.shape)
        × IfSome c.further (λ n. AreFrom c.shape c.vectors.now c.cell (moved_on n c.cells.now)) };
}

impl<'a> Centre<'a> {
    /// The cell at a vector from this one, by the number of the vector, counted from 0, or nothing
    /// exactly where that is outside.
    pub fn cell_at(&self, number: usize) -> Option<CellId>
        requires { number < length self.now.around.template }
        ensures cell { result ≡ cell_from self.now number }
        ensures inside { IfSome result (λ c. c < cells_of self.now.around.sides) }
    {
        match self.further {
            Some(further) => {
                let first = self.cells[number];
                Some(CellId(first.0 + further))
            }
            None => self.shape.step(self.cell, self.vectors[number]),
        }
    }
}

// How much further the cells at the vectors from a cell are than those from the first cell with room
// for the whole template, if there is room around it too.
fn further_from_first(ground: &Ground<'_>, cells: &[CellId], cell: CellId) -> Option<u32>
    requires cells { 0 < ground.now.span.cells → AreFrom ground.now.image.now.sides ground.now.vectors.now ground.now.span.first cells.now }
    requires cell { cell < cells_of ground.now.image.now.sides }
    ensures room { is_some result ≡ is_inside ground.now.image.now.sides ground.now.vectors.now cell }
    ensures further { IfSome result (λ n. AreFrom ground.now.image.now.sides ground.now.vectors.now cell (moved_on n cells.now)) }
{
    if is_within(ground.margins, ground.image.shape(), cell) {
        Some(cell.0 - ground.span.first)
    } else {
        None
    }
}

// The cells at the vectors from the first cell with room for the whole template.
fn cells_from_first(alloc: Global, ground: &Ground<'_>) -> Result<Vec<CellId>, NoMemory>
    ensures { IfOk result (λ cells. 0 < ground.now.span.cells → AreFrom ground.now.image.now.sides ground.now.vectors.now ground.now.span.first cells.items) }
{
    let mut cells = Vec::new(alloc);
    if ground.span.cells == 0 {
        return Ok(cells);
    }
    let shape = ground.image.shape();
    let first = CellId(ground.span.first);
    for v in ground.vectors {
        let Some(cell) = shape.step(first, *v) else {
            unreachable!()
        };
        cells.push(cell)?;
    }
    Ok(cells)
}

// The known template cells around a cell with room for the whole template. From each such cell a
// vector leads as far as from the first of them.
fn event_within(ground: &Ground<'_>, cells: &[CellId], grid: &Grid, cell: CellId) -> Event
    requires cells { 0 < ground.now.span.cells → AreFrom ground.now.image.now.sides ground.now.vectors.now ground.now.span.first cells.now }
    requires sides { grid.now.sides ≡ ground.now.image.now.sides }
    requires cell { cell < cells_of ground.now.image.now.sides }
    requires inside { is_inside ground.now.image.now.sides ground.now.vectors.now cell ≡ true }
    requires short { length ground.now.vectors.now ≤ 64 }
    ensures data_ { result ≡ data_by (λ _ v. cat_at grid.now cell v) ground.now.vectors.now }
    ensures event { IsEvent (length ground.now.vectors.now) result }
{
    let _ = grid.shape();
    let further = cell.0 - ground.span.first;
    let mut event = Event::empty();
    for (i, first) in cells.iter().enumerate() {
        push_found(&mut event, i, grid.get(CellId(first.0 + further)));
    }
    event
}
