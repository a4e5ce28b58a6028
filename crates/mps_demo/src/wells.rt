// The wells.
ghost use Rattle.std.specs.Prelude.{◌≡◌, ◌+◌, ◌*◌, ◌<◌, IfOk};
ghost use Rattle.mp_base.specs.Grid.{IsBelow};
ghost use Rattle.mps_demo.specs.Drawn.{place_in};
ghost use Rattle.mps_demo.specs.Image.{image_sides};
ghost use Rattle.mps_demo.specs.Wells.{well_of, wells_of};

use crate::drawing::draw;
use gslib_grid::{Row, Rows};
use mp_base::{Grid, NoMemory};
use path_stream::WordCursor;
use std::alloc::Global;

/// How many wells there are.
pub const WELLS: u32 = 30;

/// The grid has as many cells along x and along y, and is flat.
pub const GRID_SIDE: u32 = 100;

/// The size of a cell, in millionths.
pub const CELL_SIZE: i64 = 1_000_000;

/// The wells, by the words behind those of the channels, as the rows of a table of points. Each has the
/// image's category of the cell with its coordinates.
pub fn draw_wells(alloc: Global, image: &Grid, words: &mut WordCursor) -> Result<Rows, NoMemory>
    requires sides { image.now.sides ≡ image_sides }
    requires words { words.old ≡ place_in words.old.seed 10 }
    ensures { IfOk result (λ rows. rows ≡ wells_of words.old.seed image.now) }
{
    let mut rows = Rows::new(alloc);
    for number in 0..WELLS {
        rows.push(draw_well(image, number, words))?;
    }
    Ok(rows)
}

// The well of this number, by the next two words.
#[tactic(auto, unfolding(crate::specs::Image::image_sides))]
fn draw_well(image: &Grid, number: u32, words: &mut WordCursor) -> Row
    requires sides { image.now.sides ≡ image_sides }
    requires number { number < WELLS }
    requires words { words.old ≡ place_in words.old.seed (10 + 2 * number) }
    ensures well { result ≡ well_of words.old.seed image.now number }
    ensures below { IsBelow 8 result.cat }
    ensures words { words.new ≡ place_in words.old.seed (10 + 2 * (number + 1)) }
{
    let x = draw(words, GRID_SIDE);
    let y = draw(words, GRID_SIDE);
    Row {
        line: number + 1,
        x: Some(i64::from(x) * CELL_SIZE),
        y: Some(i64::from(y) * CELL_SIZE),
        z: Some(0),
        cat: image.get(image.shape().cell(x, y, 0)),
    }
}
