// The text of `check`.
ghost use Rattle.std.specs.Prelude.{◌≡◌, ◌++◌, IfOk, OnOk, count_by, is_some, string_bytes};
ghost use Rattle.realisation_out.specs.Report.{level_lines};
ghost use Rattle.mps_inputs.specs.Judged.{IsJudged};
ghost use Rattle.mps_inputs.specs.declared.inputs.Inputs.{Inputs};
ghost use Rattle.mps_top.specs.Texts.{check_text as check_text_of, image_line as image_line_of};

use arrayvec::ArrayVec;
use mp_base::{CellId, Grid, NoMemory};
use mp_params::{Params, print_params};
use mps_inputs::Judged;
use realisation_out::{push_level_lines, push_points_line};
use std::alloc::{AllocError, Global};

/// The text that `check` tells: the parameters, the image, the points, and the nodes and eroded
/// positions of each level.
#[tactic(auto, unfolding(crate::specs::Texts::check_text))]
pub fn check_text(alloc: Global, judged: &Judged) -> Result<Vec<u8>, NoMemory>
    ensures { IfOk result (λ text. (inputs : Inputs) → IsJudged inputs judged.now → text.items ≡ check_text_of inputs judged.now.positions.items) }
{
    let mut text = print_params(alloc, &judged.parameters)?;
    text.extend_from_slice(image_line(alloc, &judged.setup.image)?.as_bytes())?;
    push_points_line(&mut text, judged.rows, judged.used, judged.skipped)?;
    push_levels(&mut text, &judged.parameters, &judged.positions)?;
    text.extend_from_slice(b"ok\n")?;
    Ok(text)
}

// Appends the line of each level.
fn push_levels(
    to: &mut Vec<u8>,
    parameters: &Params,
    positions: &ArrayVec<u32, 8>,
) -> Result<(), NoMemory>
    ensures { OnOk result (to.new.items ≡ to.old.items ++ level_lines parameters.now.grid positions.now.items) }
{
    push_level_lines(to, parameters.grid, positions.as_slice())
}

// How many cells the image has, and how many of them are known.
fn image_line(alloc: Global, image: &Grid) -> Result<String, AllocError>
    ensures { IfOk result (λ line. string_bytes line ≡ image_line_of image.now) }
{
    let (cells, known) = (image.shape().cells(), known_cells(image));
    format!(in alloc; "image cells {cells} known {known}\n")
}

fn known_cells(image: &Grid) -> u32
    ensures { result ≡ count_by is_some image.now.cells }
{
    let mut known = 0;
    for number in 0..image.shape().cells() {
        if image.get(CellId(number)).is_some() {
            known += 1;
        }
    }
    known
}
