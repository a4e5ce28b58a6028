// The parameters, and all that is simulated.
ghost use Rattle.std.specs.Prelude.{◌≡◌, ◌∷◌, [], IfOk, codes, pos};
ghost use Rattle.hard_data.specs.Points.{HasSizes};
ghost use Rattle.mps_inputs.specs.Inputs.{IsInputs, frame_of as frame_with};
ghost use Rattle.mps_demo.specs.Inputs.{demo_inputs, demo_parameters, grid_sides, no_file};

use crate::channels::draw_channels;
use crate::drawing::words_of;
use crate::image::{image_of, image_shape};
use crate::wells::{CELL_SIZE, GRID_SIDE, WELLS, draw_wells};
use arrayvec::ArrayVec;
use gslib_grid::Table;
use hard_data::points_to_cells;
use mp_base::{CodeList, Frame, NoMemory, Shape};
use mp_params::{Name, Params, StoreChoice};
use mps_inputs::{Inputs, codes_of};
use std::alloc::Global;

/// What a seed gives to simulate.
pub fn draw_inputs(alloc: Global, seed: u32) -> Result<Inputs, NoMemory>
    ensures inputs { IfOk result (λ inputs. inputs ≡ demo_inputs seed) }
    ensures accepted { IfOk result IsInputs }
    ensures one { IfOk result (λ inputs. inputs.parameters.realisations ≡ 1) }
{
    let parameters = parameters_of(alloc, seed)?;
    let codes = codes_of(&parameters);
    let mut words = words_of(seed);
    let channels = draw_channels(&mut words);
    let image = image_of(alloc, channels.as_slice())?;
    let rows = draw_wells(alloc, &image, &mut words)?;
    let table = Table { lines: WELLS, rows };
    let points = points_to_cells(alloc, &table, &frame_of(&parameters))?;
    Ok(Inputs {
        parameters,
        codes,
        image,
        points,
    })
}

// The parameters. Those that aren't told are as in a parameter file that leaves them out.
fn parameters_of(alloc: Global, seed: u32) -> Result<Params, NoMemory>
    ensures { IfOk result (λ p. p ≡ demo_parameters seed) }
{
    Ok(Params {
        version: 1,
        image: no_file_name(alloc)?,
        image_shape: image_shape(),
        image_column: 1,
        categories: two_codes(),
        missing: -9_966_699,
        grid: grid_shape(),
        origin: [0; 3],
        size: [CELL_SIZE; 3],
        points: None,
        point_columns: [1, 2, 3, 4],
        radii: [10, 10, 0],
        template: 40,
        max_data: 64,
        min_replicates: 10,
        levels: 3,
        servo: 500,
        targets: None,
        seed: u64::from(seed),
        realisations: 1,
        store: StoreChoice::Tree,
        window: 64,
        output: no_file_name(alloc)?,
    })
}

// The name in the place of a file's: no file is read or written.
fn no_file_name(alloc: Global) -> Result<Name, NoMemory>
    ensures { IfOk result (λ name. name ≡ no_file) }
{
    let Some(name) = Name::new(String::from_str(alloc, "none")?) else {
        unreachable!()
    };
    Ok(name)
}

// The shape of the grid.
fn grid_shape() -> Shape
    ensures { result ≡ grid_sides }
{
    Shape {
        nx: GRID_SIDE,
        ny: GRID_SIDE,
        nz: 1,
    }
}

// The codes of the categories are their indices.
fn two_codes() -> CodeList
    ensures { result ≡ pos 0 ∷ pos 1 ∷ [] }
{
    let mut codes = ArrayVec::new();
    codes.push(0);
    codes.push(1);
    CodeList::new(codes)
}

// Where the grid lies.
fn frame_of(parameters: &Params) -> Frame
    ensures { result ≡ frame_with parameters.now }
{
    Frame {
        shape: parameters.grid,
        origin: parameters.origin,
        size: parameters.size,
    }
}
