// The simulation that inputs ask for, and whether the image has enough eroded positions for it.
ghost use Rattle.std.specs.Prelude.{◌≡◌, IfErr, IfOk, length};
ghost use Rattle.seq_engine.specs.Setup.{IsSetup};
ghost use Rattle.mps_inputs.specs.Answers.{IsRefusal};
ghost use Rattle.mps_inputs.specs.Inputs.{IsInputs, codes_in};
ghost use Rattle.mps_inputs.specs.Setup.{positions_of as positions_by_level, setup_for};
ghost use Rattle.mps_inputs.specs.Judged.{IsJudged};

use crate::fault::Fault;
use crate::inputs::Inputs;
use crate::setup::setup_of;
use arrayvec::ArrayVec;
use hard_data::Placed;
use mp_base::Codes;
use mp_params::Params;
use seq_engine::{Setup, check_positions};
use std::alloc::Global;

/// A simulation with enough eroded positions: its parameters, their codes, its setup, the number of positions by
/// level, the finest first, and the numbers of its points.
#[derive(Drop)]
pub struct Judged {
    pub parameters: Params,
    pub codes: Codes,
    pub setup: Setup,
    pub positions: ArrayVec<u32, 8>,
    pub rows: u32,
    pub used: u32,
    pub skipped: u32,
}

/// The simulation that inputs ask for, or the fault that a level has too few eroded positions.
pub fn judge(alloc: Global, inputs: Inputs) -> Result<Judged, Fault>
    requires { IsInputs inputs }
    ensures judged { IfOk result (IsJudged inputs) }
    ensures valid { IfOk result (λ judged. IsSetup judged.setup) }
    ensures cats { IfOk result (λ judged. judged.setup.cats ≡ length judged.parameters.categories) }
    ensures codes { IfOk result (λ judged. judged.codes ≡ codes_in judged.parameters) }
    ensures fault { IfErr result (IsRefusal (positions_by_level (setup_for inputs))) }
{
    let Inputs {
        parameters,
        codes,
        image,
        points,
    } = inputs;
    let Placed {
        cells,
        rows,
        used,
        skipped,
    } = points;
    let setup = setup_of(alloc, &parameters, image, cells)?;
    let positions = check_positions(alloc, &setup)?;
    Ok(Judged {
        parameters,
        codes,
        setup,
        positions,
        rows,
        used,
        skipped,
    })
}
