// The realisations, written one after another into the output file.
ghost use Rattle.std.specs.Prelude.{◌≡◌, ◌++◌, ◌≤◌, List, ℕ, [], IfErr, IfOk, IsTrue, OnOk, Some, length};
ghost use Rattle.mp_outside.specs.Causes.{FailsOnlyIf};
ghost use Rattle.mp_outside.specs.Seen.{NoWriteFailed, OnlyWrites, WriteFailed};
ghost use Rattle.realisation_out.specs.Pieces.{HasPut};
ghost use Rattle.realisation_out.specs.Text.{rows_text};
ghost use Rattle.seq_engine.specs.Realisation.{realised};
ghost use Rattle.seq_engine.specs.Setup.{IsSetup};
ghost use Rattle.mps_inputs.specs.Files.{Filled, IsWriteFault, Written};
ghost use Rattle.mps_inputs.specs.Inputs.{codes_in};
ghost use Rattle.mps_run.specs.Putting.{IsOpen, IsPutOrFront, IsWholeOrFront};
ghost use Rattle.mps_run.specs.Texts.{counts_of, file_text, realisation_counts, run_file};

use crate::putting::{put_opening, put_rows};
use mp_base::{Codes, Counts};
use mp_outside::{Files, OutFault};
use mp_params::Params;
use mps_inputs::{Fault, create_output, write_fault};
use realisation_out::Pieces;
use seq_engine::{LevelRunner, Setup, run_realisation};
use std::alloc::Global;

/// Makes the output file, and puts its opening and one realisation after another into it, in pieces. It
/// answers how many cells of each realisation have each category. The cells of one realisation are held
/// at a time, and of the text a piece and some hundreds of rows.
pub fn write_realisations<R: LevelRunner, F: Files>(
    alloc: Global,
    files: &mut F,
    name: &str,
    parameters: &Params,
    codes: &Codes,
    setup: &Setup,
    runner: &mut R,
) -> Result<Vec<Counts>, Fault>
    requires name { length name.now ≤ 255 }
    requires setup { IsSetup setup.now }
    requires cats { setup.now.cats ≡ length parameters.now.categories }
    requires codes { codes.now ≡ codes_in parameters.now }
    requires ready { R.ready runner.old }
    ensures written { Written name.now (run_file parameters.now setup.now) (F.seen files.old) (F.seen files.new) result }
    ensures counts { IfOk result (λ counts. counts.items ≡ counts_of setup.now parameters.now.realisations) }
    ensures cause { IfErr result (IsWriteFault name.now (F.seen files.old) (F.seen files.new)) }
    ensures only { OnlyWrites name.now (F.seen files.old) (F.seen files.new) }
{
    create_output(files, name)?;
    fill_output(alloc, files, name, parameters, codes, setup, runner)
}

// Fills the output file, which was made and is empty.
fn fill_output<R: LevelRunner, F: Files>(
    alloc: Global,
    files: &mut F,
    name: &str,
    parameters: &Params,
    codes: &Codes,
    setup: &Setup,
    runner: &mut R,
) -> Result<Vec<Counts>, Fault>
    requires name { length name.now ≤ 255 }
    requires setup { IsSetup setup.now }
    requires cats { setup.now.cats ≡ length parameters.now.categories }
    requires codes { codes.now ≡ codes_in parameters.now }
    requires ready { R.ready runner.old }
    requires made { IsTrue (F.seen files.old).tells → (F.seen files.old).held name.now ≡ Some [] }
    ensures filled { Filled name.now (run_file parameters.now setup.now) (F.seen files.old) (F.seen files.new) result }
    ensures counts { IfOk result (λ counts. counts.items ≡ counts_of setup.now parameters.now.realisations) }
    ensures cause { IfErr result (IsWriteFault name.now (F.seen files.old) (F.seen files.new)) }
    ensures only { OnlyWrites name.now (F.seen files.old) (F.seen files.new) }
{
    match put_file(alloc, files, name, parameters, codes, setup, runner) {
        Ok(counts) => Ok(counts),
        Err(fault) => Err(write_fault(name, fault)),
    }
}

// Puts the whole text into the file, piece by piece to the last.
fn put_file<R: LevelRunner, F: Files>(
    alloc: Global,
    files: &mut F,
    name: &str,
    parameters: &Params,
    codes: &Codes,
    setup: &Setup,
    runner: &mut R,
) -> Result<Vec<Counts>, OutFault>
    requires setup { IsSetup setup.now }
    requires cats { setup.now.cats ≡ length parameters.now.categories }
    requires codes { codes.now ≡ codes_in parameters.now }
    requires ready { R.ready runner.old }
    requires made { IsTrue (F.seen files.old).tells → (F.seen files.old).held name.now ≡ Some [] }
    ensures whole { IsWholeOrFront name.now (F.seen files.new) (run_file parameters.now setup.now) result }
    ensures counts { IfOk result (λ counts. counts.items ≡ counts_of setup.now parameters.now.realisations) }
    ensures cause { FailsOnlyIf result (WriteFailed name.now (F.seen files.old) (F.seen files.new)) }
    ensures only { OnlyWrites name.now (F.seen files.old) (F.seen files.new) }
{
    let mut pieces = Pieces::new(alloc, name)?;
    put_opening(alloc, files, &mut pieces, parameters)?;
    let counts = put_realisations(alloc, files, &mut pieces, parameters, codes, setup, runner)?;
    pieces.end(files)?;
    Ok(counts)
}

// Puts one realisation after another behind the opening.
fn put_realisations<R: LevelRunner, F: Files>(
    alloc: Global,
    files: &mut F,
    pieces: &mut Pieces,
    parameters: &Params,
    codes: &Codes,
    setup: &Setup,
    runner: &mut R,
) -> Result<Vec<Counts>, OutFault>
    requires setup { IsSetup setup.now }
    requires cats { setup.now.cats ≡ length parameters.now.categories }
    requires codes { codes.now ≡ codes_in parameters.now }
    requires ready { R.ready runner.old }
    requires going { IsOpen pieces.old (F.seen files.old) }
    requires opening { HasPut pieces.old (F.seen files.old) (file_text parameters.now []) }
    ensures put { IsPutOrFront pieces.new (F.seen files.new) (run_file parameters.now setup.now) result }
    ensures going { OnOk result (IsOpen pieces.new (F.seen files.new)) }
    ensures name { pieces.new.name ≡ pieces.old.name }
    ensures counts { IfOk result (λ counts. counts.items ≡ counts_of setup.now parameters.now.realisations) }
    ensures cause { FailsOnlyIf result (WriteFailed pieces.old.name (F.seen files.old) (F.seen files.new)) }
    ensures uncounted { OnOk result (NoWriteFailed (F.seen files.old) (F.seen files.new)) }
    ensures only { OnlyWrites pieces.old.name (F.seen files.old) (F.seen files.new) }
{
    let mut counts = Vec::new(alloc);
    for realisation in 0..parameters.realisations {
        let counted = put_realisation(alloc, files, pieces, codes, setup, realisation, runner)?;
        counts.push(counted)?;
    }
    Ok(counts)
}

// Simulates a realisation, puts its rows, and counts its categories.
fn put_realisation<R: LevelRunner, F: Files>(
    alloc: Global,
    files: &mut F,
    pieces: &mut Pieces,
    codes: &Codes,
    setup: &Setup,
    realisation: u32,
    runner: &mut R,
) -> Result<Counts, OutFault>
    requires setup { IsSetup setup.now }
    requires cats { setup.now.cats ≡ length codes.now.categories }
    requires realisation { realisation ≤ 999 }
    requires ready { R.ready runner.old }
    requires going { IsOpen pieces.old (F.seen files.old) }
    ensures put { (text : List ℕ) → HasPut pieces.old (F.seen files.old) text → IsPutOrFront pieces.new (F.seen files.new) (text ++ rows_text codes.now.categories (realised setup.now realisation).cells) result }
    ensures going { OnOk result (IsOpen pieces.new (F.seen files.new)) }
    ensures name { pieces.new.name ≡ pieces.old.name }
    ensures counts { IfOk result (λ counts. counts ≡ realisation_counts setup.now realisation) }
    ensures cause { FailsOnlyIf result (WriteFailed pieces.old.name (F.seen files.old) (F.seen files.new)) }
    ensures uncounted { OnOk result (NoWriteFailed (F.seen files.old) (F.seen files.new)) }
    ensures only { OnlyWrites pieces.old.name (F.seen files.old) (F.seen files.new) }
    ensures ready { R.ready runner.new }
{
    // The positions were judged, so memory alone can be wanting.
    let Ok(grid) = run_realisation(alloc, setup, realisation, runner) else {
        return Err(OutFault::NoMemory);
    };
    put_rows(alloc, files, pieces, codes, &grid)?;
    Ok(grid.counts(setup.cats))
}
