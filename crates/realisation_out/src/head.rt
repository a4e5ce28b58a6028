// The opening of a realisation file.
ghost use Rattle.std.specs.Prelude.{◌≡◌, ◌++◌, IfOk, OnErr, OnOk, string_bytes};
ghost use Rattle.realisation_out.specs.Text.{head_text};

use mp_base::{NoMemory, Shape};
use std::alloc::{AllocError, Global};

/// Appends the opening of a file: the sides of the grid, how many realisations follow and the
/// seed, in a title line; then, as GEO-EAS has it, the number of columns and the column's name.
/// Without memory for it the vector stays as it was.
pub fn push_head(
    to: &mut Vec<u8>,
    shape: Shape,
    realisations: u32,
    seed: u64,
) -> Result<(), NoMemory>
    ensures text { OnOk result (to.new.items ≡ to.old.items ++ head_text shape realisations seed) }
    ensures err { OnErr result (to.new.items ≡ to.old.items) }
{
    let Shape { nx, ny, nz } = shape;
    let head = head_of(*to.allocator(), nx, ny, nz, realisations, seed)?;
    to.extend_from_slice(head.as_bytes())?;
    Ok(())
}

fn head_of(
    alloc: Global,
    nx: u32,
    ny: u32,
    nz: u32,
    realisations: u32,
    seed: u64,
) -> Result<String, AllocError>
    ensures { IfOk result (λ head. string_bytes head ≡ head_text (record { nx = nx; ny = ny; nz = nz }) realisations seed) }
{
    format!(in alloc; "mpsim {nx} {ny} {nz} realisations {realisations} seed {seed}\n1\ncategory\n")
}
