// The inputs of a command, read and judged in their order.
ghost use Rattle.std.specs.Prelude.{◌≡◌, ◌≢◌, ◌≤◌, All, AllPairs, Contains, IfErr, IfOk, Ok, length};
ghost use Rattle.mp_base.specs.Grid.{IsBelow};
ghost use Rattle.gslib_grid.specs.Table.{wanted_of};
ghost use Rattle.mp_outside.specs.Seen.{OnlyReads};
ghost use Rattle.hard_data.specs.Points.{HasSizes};
ghost use Rattle.mps_inputs.specs.Answers.{IsAccepted, IsInputFault, IsRefusal};
ghost use Rattle.mps_inputs.specs.Inputs.{IsInputs, codes_in, frame_of as frame_with, image_in as image_in_file, image_with, inputs_of, inputs_with, no_points as without_points, parameters_in as parameters_in_file, points_in as points_in_file, points_of, points_with, read_as, tables_of, wanted_image as image_wanted, wanted_points as points_wanted};
ghost use Rattle.mps_inputs.specs.Tables.{IsTable};

use crate::fault::{Fault, Name};
use crate::files::read_file;
use crate::tables::read_table_file;
use arrayvec::ArrayVec;
use gslib_grid::{Table, Want, image_from_table};
use hard_data::{Placed, points_to_cells};
use mp_base::{CodeList, Codes, Frame, Grid, NoMemory};
use mp_outside::Files;
use mp_params::{Name as FileName, Params, read_params};
use std::alloc::Global;

/// The parameters with their codes, the training image that they name, and the hard data of their
/// points.
#[derive(Drop)]
pub struct Inputs {
    pub parameters: Params,
    /// The codes of the parameters' categories, made once.
    pub codes: Codes,
    pub image: Grid,
    pub points: Placed,
}

// The most bytes of a parameter file.
const PARAMETERS_LIMIT: u32 = 1 << 16;

/// Reads and judges the parameter file, then the image that it names, and then the point file, where
/// it names one. No bytes of the files are kept.
pub fn read_inputs<F: Files>(alloc: Global, files: &mut F, name: &Name) -> Result<Inputs, Fault>
    ensures read { IsAccepted (inputs_of name.now) (F.seen files.old) result }
    ensures inputs { IfOk result IsInputs }
    ensures fault { IfErr result (IsInputFault (inputs_of name.now) (F.seen files.old) (F.seen files.new)) }
    ensures only { OnlyReads (F.seen files.old) (F.seen files.new) }
{
    let parameters = read_parameters(alloc, files, name)?;
    let codes = codes_of(&parameters);
    read_tables(alloc, files, parameters, codes)
}

/// The image that parameters name, and then their points.
pub fn read_tables<F: Files>(
    alloc: Global,
    files: &mut F,
    parameters: Params,
    codes: Codes,
) -> Result<Inputs, Fault>
    requires codes { codes ≡ codes_in parameters }
    ensures read { IsAccepted (tables_of parameters) (F.seen files.old) result }
    ensures parameters { IfOk result (λ inputs. inputs.parameters ≡ parameters) }
    ensures inputs { IfOk result IsInputs }
    ensures fault { IfErr result (IsInputFault (tables_of parameters) (F.seen files.old) (F.seen files.new)) }
    ensures only { OnlyReads (F.seen files.old) (F.seen files.new) }
{
    let image = read_image(alloc, files, &parameters)?;
    read_behind_image(alloc, files, parameters, codes, image)
}

// The points that parameters name, beside an image.
fn read_behind_image<F: Files>(
    alloc: Global,
    files: &mut F,
    parameters: Params,
    codes: Codes,
    image: Grid,
) -> Result<Inputs, Fault>
    requires codes { codes ≡ codes_in parameters }
    requires sides { image.sides ≡ parameters.image_shape }
    requires below { All (IsBelow (length parameters.categories)) image.cells }
    ensures read { IsAccepted (inputs_with parameters image) (F.seen files.old) result }
    ensures parameters { IfOk result (λ inputs. inputs.parameters ≡ parameters) }
    ensures inputs { IfOk result IsInputs }
    ensures fault { IfErr result (IsInputFault (inputs_with parameters image) (F.seen files.old) (F.seen files.new)) }
    ensures only { OnlyReads (F.seen files.old) (F.seen files.new) }
{
    let points = read_points(alloc, files, &parameters)?;
    Ok(Inputs {
        parameters,
        codes,
        image,
        points,
    })
}

/// The parameters of a file.
pub fn read_parameters<F: Files>(alloc: Global, files: &mut F, name: &Name) -> Result<Params, Fault>
    ensures read { IsAccepted (read_as parameters_in_file name.now) (F.seen files.old) result }
    ensures fault { IfErr result (IsInputFault (read_as parameters_in_file name.now) (F.seen files.old) (F.seen files.new)) }
    ensures only { OnlyReads (F.seen files.old) (F.seen files.new) }
{
    let bytes = read_file(alloc, files, name.as_str(), PARAMETERS_LIMIT)?;
    parameters_in(alloc, &bytes)
}

// The parameters that a file's bytes give.
#[tactic(auto, unfolding(crate::specs::Inputs::parameters_in))]
fn parameters_in(alloc: Global, bytes: &[u8]) -> Result<Params, Fault>
    ensures given { IfOk result (λ p. parameters_in_file bytes.now ≡ Ok p) }
    ensures fault { IfErr result (IsRefusal (parameters_in_file bytes.now)) }
{
    Ok(read_params(alloc, bytes)?)
}

// The training image that parameters name.
fn read_image<F: Files>(alloc: Global, files: &mut F, parameters: &Params) -> Result<Grid, Fault>
    ensures read { IsAccepted (read_as (image_in_file parameters.now) parameters.now.image) (F.seen files.old) result }
    ensures sides { IfOk result (λ image. image.sides ≡ parameters.now.image_shape) }
    ensures below { IfOk result (λ image. All (IsBelow (length parameters.now.categories)) image.cells) }
    ensures fault { IfErr result (IsInputFault (read_as (image_in_file parameters.now) parameters.now.image) (F.seen files.old) (F.seen files.new)) }
    ensures only { OnlyReads (F.seen files.old) (F.seen files.new) }
{
    let table = read_table_file(
        alloc,
        files,
        parameters.image.as_str(),
        wanted_image(parameters),
        distinct_codes(parameters),
    )?;
    Ok(image_of(alloc, parameters, &table)?)
}

// What is asked of the image's table.
fn wanted_image(parameters: &Params) -> Want
    ensures want { result ≡ image_wanted parameters.now }
    ensures column { 1 ≤ (wanted_of result).category }
{
    Want::Image {
        column: parameters.image_column,
        rows: parameters.image_shape.cells(),
    }
}

// The training image that a table gives.
fn image_of(alloc: Global, parameters: &Params, table: &Table) -> Result<Grid, NoMemory>
    requires { IsTable (image_wanted parameters.now) (codes_in parameters.now) table.now }
    ensures given { IfOk result (λ image. image_with parameters.now table.now ≡ Ok image) }
    ensures sides { IfOk result (λ image. image.sides ≡ parameters.now.image_shape) }
    ensures below { IfOk result (λ image. All (IsBelow (length parameters.now.categories)) image.cells) }
{
    image_from_table(alloc, table, parameters.image_shape)
}

// The hard data of the point file, where parameters name one.
fn read_points<F: Files>(alloc: Global, files: &mut F, parameters: &Params) -> Result<Placed, Fault>
    ensures read { IsAccepted (points_of parameters.now parameters.now.points) (F.seen files.old) result }
    ensures sides { IfOk result (λ points. points.cells.sides ≡ parameters.now.grid) }
    ensures below { IfOk result (λ points. All (IsBelow (length parameters.now.categories)) points.cells.cells) }
    ensures fault { IfErr result (IsInputFault (points_of parameters.now parameters.now.points) (F.seen files.old) (F.seen files.new)) }
    ensures only { OnlyReads (F.seen files.old) (F.seen files.new) }
{
    match &parameters.points {
        Some(name) => read_point_file(alloc, files, parameters, name),
        None => Ok(no_points(alloc, parameters)?),
    }
}

// The hard data of a point file.
fn read_point_file<F: Files>(
    alloc: Global,
    files: &mut F,
    parameters: &Params,
    name: &FileName,
) -> Result<Placed, Fault>
    ensures read { IsAccepted (read_as (points_in_file parameters.now) name.now) (F.seen files.old) result }
    ensures sides { IfOk result (λ points. points.cells.sides ≡ parameters.now.grid) }
    ensures below { IfOk result (λ points. All (IsBelow (length parameters.now.categories)) points.cells.cells) }
    ensures fault { IfErr result (IsInputFault (read_as (points_in_file parameters.now) name.now) (F.seen files.old) (F.seen files.new)) }
    ensures only { OnlyReads (F.seen files.old) (F.seen files.new) }
{
    let table = read_table_file(
        alloc,
        files,
        name.as_str(),
        wanted_points(parameters),
        distinct_codes(parameters),
    )?;
    Ok(hard_data_of(alloc, parameters, &table)?)
}

// What is asked of the points' table.
fn wanted_points(parameters: &Params) -> Want
    ensures want { result ≡ points_wanted parameters.now }
    ensures column { 1 ≤ (wanted_of result).category }
{
    Want::Points {
        columns: parameters.point_columns,
    }
}

// The hard data that a table gives.
fn hard_data_of(alloc: Global, parameters: &Params, table: &Table) -> Result<Placed, NoMemory>
    requires { IsTable (points_wanted parameters.now) (codes_in parameters.now) table.now }
    ensures given { IfOk result (λ points. points_with parameters.now table.now ≡ Ok points) }
    ensures sides { IfOk result (λ points. points.cells.sides ≡ parameters.now.grid) }
    ensures below { IfOk result (λ points. All (IsBelow (length parameters.now.categories)) points.cells.cells) }
{
    points_to_cells(alloc, table, &frame_of(parameters))
}

// Where the grid lies.
fn frame_of(parameters: &Params) -> Frame
    ensures frame { result ≡ frame_with parameters.now }
    ensures sizes { HasSizes result }
{
    Frame {
        shape: parameters.grid,
        origin: parameters.origin,
        size: parameters.size,
    }
}

// No cell has a datum.
fn no_points(alloc: Global, parameters: &Params) -> Result<Placed, NoMemory>
    ensures { IfOk result (λ points. points ≡ without_points parameters.now) }
{
    Ok(Placed {
        cells: Grid::unknown(alloc, parameters.grid)?,
        rows: 0,
        used: 0,
        skipped: 0,
    })
}

/// The codes of the categories, and of a missing value.
pub fn codes_of(parameters: &Params) -> Codes
    ensures { result ≡ codes_in parameters.now }
{
    distinct_codes(parameters)
}

// The same: no two categories have one code, and the missing code is none of theirs.
fn distinct_codes(parameters: &Params) -> Codes
    ensures codes { result ≡ codes_in parameters.now }
    ensures differ { AllPairs (λ a b. a ≢ b) result.categories }
    ensures missing { ¬ (Contains result.categories result.missing) }
{
    Codes {
        categories: list_of(parameters.categories.as_slice()),
        missing: parameters.missing,
    }
}

// The list of these codes.
fn list_of(codes: &[i32]) -> CodeList
    requires { length codes.now ≤ 8 }
    ensures { result ≡ codes.now }
{
    let mut listed = ArrayVec::new();
    for code in codes {
        listed.push(*code);
    }
    CodeList::new(listed)
}
