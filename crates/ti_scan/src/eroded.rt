// The eroded positions of an image, and counting the replicates of an event among them.
ghost use Rattle.std.specs.Prelude.{◌≡◌, ◌≤◌, ◌<◌, ◌^◌, All, IfOk, length};
ghost use Rattle.mp_base.specs.Grid.{cells_of, cat_at, IsBelow};
ghost use Rattle.ti_scan.specs.Eroded.{positions_of};
ghost use Rattle.ti_scan.specs.Event.{counts_of, IsEvent, IsSource};

use crate::erosion::{BLOCK, count_block, push_block};
use crate::event::Event;
use crate::ground::ground_of;
use crate::margins::Span;
use crate::scan::scan_block;
use mp_base::{Cat, CellId, Counts, Grid, NoMemory, Vector};
use std::alloc::Global;
use std::marker::Model;
use template_order::Template;

/// An image with a template, and the cells whose template cells are all inside the image and known.
#[derive(Drop)]
pub struct Eroded<'a> {
    image: &'a Grid,
    template: &'a Template,
    cats: u8,
    positions: Vec<CellId>,
    // The first of the cells from the first to the last around which the template is inside, and
    // a byte for each of them: the category of an eroded position, and else none.
    first: u32,
    centres: Vec<u8>,
}

impl<'a> Model for Eroded<'a> {
    ghost use Rattle.ti_scan.specs.Event.{Source};
    ghost use Rattle.ti_scan.specs.Window.{IsScanned};

    ghost Value = { Source };

    ghost view = { λ e. record { image = e.image.now; template = e.template.now.vectors; cats = e.cats } };

    ghost invariant = { λ e. IsScanned (record { image = e.image.now; template = e.template.now.vectors; cats = e.cats }) e.positions.items e.first e.centres.items };
}

/// The category at a vector from a cell.
pub fn cat_from(grid: &Grid, cell: CellId, v: Vector) -> Option<Cat>
    requires { cell < cells_of grid.now.sides }
    ensures value { result ≡ cat_at grid.now cell v }
    ensures below { IsBelow 8 result }
{
    let other = grid.shape().step(cell, v)?;
    grid.get(other)
}

/// How many eroded positions the image has. It takes no memory.
pub fn count_positions(image: &Grid, template: &Template) -> u32
    ensures count { result ≡ length (positions_of image.now template.now.vectors) }
    ensures few { result ≤ 2 ^ 20 }
{
    let _ = image.shape();
    let ground = ground_of(image, template.vectors());
    let cells = ground.span.cells;
    let mut count = 0;
    let mut start = 0;
    while start < cells {
        let len = BLOCK.min(cells - start);
        count += count_block(&ground, start, len);
        start += len;
    }
    count
}

impl<'a> Eroded<'a> {
    /// Finds the eroded positions of the image: its known cells around which each cell of the
    /// template is inside the image and known.
    pub fn new(
        alloc: Global,
        image: &'a Grid,
        template: &'a Template,
        cats: u8,
    ) -> Result<Eroded<'a>, NoMemory>
        requires cats_some { 1 ≤ cats }
        requires cats_few { cats ≤ 8 }
        requires below { All (IsBelow cats) image.now.cells }
        ensures { IfOk result (λ e. e ≡ record { image = image.now; template = template.now.vectors; cats = cats }) }
    {
        let _ = image.shape();
        let ground = ground_of(image, template.vectors());
        let cells = ground.span.cells;
        let mut positions = Vec::new(alloc);
        let mut centres = Vec::with_capacity(alloc, cells as usize)?;
        let mut start = 0;
        while start < cells {
            let len = BLOCK.min(cells - start);
            push_block(&ground, start, len, &mut positions, &mut centres)?;
            start += len;
        }
        Ok(Eroded {
            image,
            template,
            cats,
            positions,
            first: ground.span.first,
            centres,
        })
    }

    /// The image that is counted in.
    pub fn image(&self) -> &'a Grid
        ensures { result.now ≡ self.now.image }
    {
        self.image
    }

    /// The template around each position.
    pub fn template(&self) -> &'a Template
        ensures { result.now.vectors ≡ self.now.template }
    {
        self.template
    }

    /// How many categories there are.
    pub fn cats(&self) -> u8
        ensures { result ≡ self.now.cats }
    {
        self.cats
    }

    /// The eroded positions, in rising number.
    pub fn positions(&self) -> &[CellId]
        ensures positions { result.now ≡ positions_of self.now.image self.now.template }
        ensures inside { All (λ c. c < cells_of self.now.image.sides) result.now }
        ensures few { length result.now ≤ 2 ^ 20 }
        ensures source { IsSource self.now }
    {
        self.positions.as_slice()
    }
}

impl<'a> Eroded<'a> {
    /// How many eroded positions that show each datum have each category at their centre.
    pub fn scan_counts(&self, event: &Event) -> Counts
        requires { IsEvent (length self.now.template) event.now }
        ensures { result ≡ counts_of self.now event.now }
    {
        let _ = self.positions();
        let centres = self.centres.as_slice();
        let span = Span {
            first: self.first,
            cells: centres.len() as u32,
        };
        let mut parts = [0; 8];
        let mut start = 0;
        while start < span.cells {
            let len = BLOCK.min(span.cells - start);
            scan_block(self, span, centres, event, start, len, &mut parts);
            start += len;
        }
        Counts::of(&parts[..self.cats as usize])
    }
}
