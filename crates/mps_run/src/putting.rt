// The parts of the realisation file, each put into pieces behind what was put before.
ghost use Rattle.std.specs.Prelude.{◌≡◌, ◌++◌, ◌≤◌, List, ℕ, All, IfOk, IsSome, OnOk, length};
ghost use Rattle.mp_base.specs.Grid.{IsBelow};
ghost use Rattle.mp_outside.specs.Causes.{FailsOnlyIf};
ghost use Rattle.mp_outside.specs.Seen.{NoWriteFailed, OnlyWrites, WriteFailed};
ghost use Rattle.realisation_out.specs.Pieces.{HasPut};
ghost use Rattle.realisation_out.specs.Text.{head_text, rows_text};
ghost use Rattle.mps_run.specs.Putting.{IsOpen, IsPutOrFront};

use mp_base::{Codes, Grid};
use mp_outside::{Files, OutFault};
use mp_params::Params;
use realisation_out::{Pieces, push_head, push_rows_between};
use std::alloc::Global;

// How many rows are made at a time: of at most eleven bytes each, so fewer bytes than a piece has.
const ROWS: u32 = 512;

/// Puts the opening of the file. After an error the file holds a front of what was put with it.
pub fn put_opening<F: Files>(
    alloc: Global,
    files: &mut F,
    pieces: &mut Pieces,
    parameters: &Params,
) -> Result<(), OutFault>
    requires going { IsOpen pieces.old (F.seen files.old) }
    ensures put { (text : List ℕ) → HasPut pieces.old (F.seen files.old) text → IsPutOrFront pieces.new (F.seen files.new) (text ++ head_text parameters.now.grid parameters.now.realisations parameters.now.seed) result }
    ensures going { OnOk result (IsOpen pieces.new (F.seen files.new)) }
    ensures name { pieces.new.name ≡ pieces.old.name }
    ensures cause { FailsOnlyIf result (WriteFailed pieces.old.name (F.seen files.old) (F.seen files.new)) }
    ensures uncounted { OnOk result (NoWriteFailed (F.seen files.old) (F.seen files.new)) }
    ensures only { OnlyWrites pieces.old.name (F.seen files.old) (F.seen files.new) }
{
    let mut opening = Vec::new(alloc);
    push_head(
        &mut opening,
        parameters.grid,
        parameters.realisations,
        parameters.seed,
    )?;
    pieces.put(files, &opening)
}

/// Puts the rows of a realisation, some hundreds at a time. After an error the file holds a front of what
/// was put with them.
pub fn put_rows<F: Files>(
    alloc: Global,
    files: &mut F,
    pieces: &mut Pieces,
    codes: &Codes,
    grid: &Grid,
) -> Result<(), OutFault>
    requires known { All IsSome grid.now.cells }
    requires below { All (IsBelow (length codes.now.categories)) grid.now.cells }
    requires going { IsOpen pieces.old (F.seen files.old) }
    ensures put { (text : List ℕ) → HasPut pieces.old (F.seen files.old) text → IsPutOrFront pieces.new (F.seen files.new) (text ++ rows_text codes.now.categories grid.now.cells) result }
    ensures going { OnOk result (IsOpen pieces.new (F.seen files.new)) }
    ensures name { pieces.new.name ≡ pieces.old.name }
    ensures cause { FailsOnlyIf result (WriteFailed pieces.old.name (F.seen files.old) (F.seen files.new)) }
    ensures uncounted { OnOk result (NoWriteFailed (F.seen files.old) (F.seen files.new)) }
    ensures only { OnlyWrites pieces.old.name (F.seen files.old) (F.seen files.new) }
{
    let mut rows = Vec::new(alloc);
    let mut from = 0;
    while from < grid.shape().cells() {
        let until = from + ROWS;
        push_rows_between(&mut rows, grid, codes, from, until)?;
        pieces.put(files, &rows)?;
        rows.clear();
        from = until;
    }
    Ok(())
}
