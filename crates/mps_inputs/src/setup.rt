// The simulation that parameters, an image and hard data ask for.
ghost use Rattle.std.specs.Prelude.{◌≡◌, ◌≤◌, All, IfOk, length, replicate};
ghost use Rattle.mp_base.specs.Grid.{IsBelow};
ghost use Rattle.seq_engine.specs.Setup.{IsSetup};
ghost use Rattle.mp_base.specs.Cells.{category_counts};
ghost use Rattle.mps_inputs.specs.Setup.{setup_of as setup_with, shares_of, target_of as target_with};

use mp_base::{Counts, Grid, NoMemory};
use mp_params::Params;
use seq_engine::Setup;
use servo_fraction::Target;
use std::alloc::Global;
use template_order::Template;

/// All that the simulation is made of, by the parameters, the image and the hard data.
#[tactic(auto, unfolding(crate::specs::Setup::setup_of))]
pub fn setup_of(
    alloc: Global,
    parameters: &Params,
    image: Grid,
    hard: Grid,
) -> Result<Setup, NoMemory>
    requires below { All (IsBelow (length parameters.now.categories)) image.cells }
    requires hard_sides { hard.sides ≡ parameters.now.grid }
    requires hard_below { All (IsBelow (length parameters.now.categories)) hard.cells }
    ensures setup { IfOk result (λ setup. setup ≡ setup_with parameters.now image hard) }
    ensures valid { IfOk result IsSetup }
    ensures image { IfOk result (λ setup. setup.image ≡ image) }
    ensures cats { IfOk result (λ setup. setup.cats ≡ length parameters.now.categories) }
{
    let cats = parameters.categories.as_slice().len() as u8;
    let target = target_of(parameters, &image, cats);
    Ok(Setup {
        image,
        template: Template::new(alloc, parameters.radii, parameters.template)?,
        shape: parameters.grid,
        hard,
        cats,
        target,
        levels: parameters.levels,
        servo: parameters.servo,
        max_data: parameters.max_data,
        min_replicates: parameters.min_replicates,
        seed: parameters.seed,
    })
}

// The wanted shares of the categories: those that are given, or else those of the image.
fn target_of(parameters: &Params, image: &Grid, cats: u8) -> Target
    requires cats { cats ≡ length parameters.now.categories }
    requires below { All (IsBelow cats) image.now.cells }
    ensures { result ≡ target_with parameters.now.targets cats image.now }
{
    // A look at a value shows the proof what its type keeps: here, that targets have a part for each
    // category, and below, that an image has few cells.
    let _ = parameters.categories.as_slice();
    match &parameters.targets {
        Some(targets) => Target::new(Counts::of(targets.as_slice())),
        None => image_target(image, cats),
    }
}

// The shares of the categories over the known cells of the image. An image without a known cell has
// none, and no eroded position either, so any target serves it.
fn image_target(image: &Grid, cats: u8) -> Target
    requires some { 1 ≤ cats }
    requires few { cats ≤ 8 }
    requires below { All (IsBelow cats) image.now.cells }
    ensures { result ≡ shares_of cats (category_counts cats image.now.cells) }
{
    let counts = image.counts(cats);
    let _ = image.shape();
    if counts.total() > 0 {
        Target::new(counts)
    } else {
        Target::new(even_shares(cats))
    }
}

// One part for each category.
fn even_shares(cats: u8) -> Counts
    requires { cats ≤ 8 }
    ensures { result ≡ replicate cats 1 }
{
    Counts::of(&[1; 8][..cats as usize])
}
