// The parameters of a simulation.
ghost use Rattle.std.specs.Prelude.{◌≡◌};

use mp_base::{CodeList, Shape};
use mp_values::{Name, StoreChoice, Targets};
use std::marker::Model;

/// The parameters of a simulation: a value for each key of a parameter file. Each value is one
/// that the key's form allows, the missing code is no category, and targets fit the categories.
#[derive(Drop)]
pub struct Params {
    pub version: u8,
    /// The file of the training image, its shape, and the column of its categories.
    pub image: Name,
    pub image_shape: Shape,
    pub image_column: u16,
    /// The codes of the categories, and of a missing value.
    pub categories: CodeList,
    pub missing: i32,
    /// The grid to simulate, its origin and the size of its cells, in millionths.
    pub grid: Shape,
    pub origin: [i64; 3],
    pub size: [i64; 3],
    /// The file of the hard data, and the columns of x, y, z and the category.
    pub points: Option<Name>,
    pub point_columns: [u16; 4],
    /// The radii of the template in cells, and the greatest number of its vectors.
    pub radii: [u8; 3],
    pub template: u8,
    /// The greatest number of data that an event keeps.
    pub max_data: u8,
    /// How many replicates an event needs.
    pub min_replicates: u32,
    /// How many grids, each twice as wide as the next, are simulated one after another.
    pub levels: u8,
    /// How strongly the proportions are steered to the target, in thousandths.
    pub servo: u16,
    pub targets: Option<Targets>,
    pub seed: u64,
    pub realisations: u32,
    pub store: StoreChoice,
    /// How many nodes workers may be ahead.
    pub window: u16,
    /// The file of the realisations.
    pub output: Name,
}

impl Model for Params {
    ghost use Rattle.mp_params.specs.Params.{ParamsValue};

    ghost Value = { ParamsValue };

    ghost use Rattle.mp_params.specs.View.{values_in, AreParams};

    ghost view = { values_in };

    ghost invariant = { AreParams };
}
