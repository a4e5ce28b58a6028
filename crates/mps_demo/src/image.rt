// The training image.
ghost use Rattle.std.specs.Prelude.{◌≡◌, ◌≤◌, IfOk, length, map};
ghost use Rattle.std.specs.List.{range_with_len};
ghost use Rattle.mps_demo.specs.Image.{centres_at, image_of as image_with, image_sides};

use crate::channels::{CHANNELS, Centres, Channel};
use mp_base::{CellId, Grid, NoMemory, Shape};
use std::alloc::Global;

/// The image has as many cells along x and along y, and is flat.
pub const IMAGE_SIDE: u32 = 250;

/// The image of these channels.
pub fn image_of(alloc: Global, channels: &[Channel]) -> Result<Grid, NoMemory>
    requires { length channels.now ≤ CHANNELS }
    ensures { IfOk result (λ image. image ≡ image_with channels.now) }
{
    let columns = columns_of(alloc, channels)?;
    let mut image = Grid::unknown(alloc, image_shape())?;
    for number in 0..image_shape().cells() {
        let cell = CellId(number);
        let (x, y, _) = image_shape().place(cell);
        image.set(cell, Some(columns[x as usize].category(y)));
    }
    Ok(image)
}

/// The shape of the image.
#[tactic(auto, unfolding(crate::specs::Image::image_sides))]
pub fn image_shape() -> Shape
    ensures { result ≡ image_sides }
{
    Shape {
        nx: IMAGE_SIDE,
        ny: IMAGE_SIDE,
        nz: 1,
    }
}

// The centres of the channels, by column.
fn columns_of(alloc: Global, channels: &[Channel]) -> Result<Vec<Centres>, NoMemory>
    requires { length channels.now ≤ CHANNELS }
    ensures { IfOk result (λ columns. columns.items ≡ map (centres_at channels.now) (range_with_len 0 image_sides.nx)) }
{
    let mut columns = Vec::new(alloc);
    for x in 0..IMAGE_SIDE {
        columns.push(Centres::of(channels, x))?;
    }
    Ok(columns)
}
