// The lines of a report.
ghost use Rattle.std.specs.Prelude.{◌≡◌, ◌++◌, ◌≤◌, IfOk, OnErr, OnOk, codes, length, string_bytes};
ghost use Rattle.std.specs.Fmt.{decimal};
ghost use Rattle.multigrid.specs.Levels.{IsLevel};
ghost use Rattle.realisation_out.specs.Report.{categories_line, grid_line, level_line as line_of_level, level_lines, numbers_line, points_line as line_of_points, realisation_line as line_of_realisation, realisation_lines, target_line};

use mp_base::{Counts, NoMemory, Shape, push_behind_spaces};
use multigrid::node_count;
use std::alloc::{AllocError, Global};

/// Appends the line that tells of points: how many there are, how many cells got a datum, and how many
/// points were skipped. Without memory for it the vector stays as it was.
pub fn push_points_line(
    to: &mut Vec<u8>,
    rows: u32,
    used: u32,
    skipped: u32,
) -> Result<(), NoMemory>
    ensures text { OnOk result (to.new.items ≡ to.old.items ++ line_of_points rows used skipped) }
    ensures err { OnErr result (to.new.items ≡ to.old.items) }
{
    let line = points_line(*to.allocator(), rows, used, skipped)?;
    to.extend_from_slice(line.as_bytes())?;
    Ok(())
}

fn points_line(alloc: Global, rows: u32, used: u32, skipped: u32) -> Result<String, AllocError>
    ensures { IfOk result (λ line. string_bytes line ≡ line_of_points rows used skipped) }
{
    format!(in alloc; "points {rows} used {used} skipped {skipped}\n")
}

/// Appends a line for each level, from the coarsest to the finest, with the nodes that the level has
/// and its eroded positions. The positions are by level, the finest first. Without memory for the lines
/// the vector stays as it was.
pub fn push_level_lines(to: &mut Vec<u8>, shape: Shape, positions: &[u32]) -> Result<(), NoMemory>
    requires { length positions.now ≤ 8 }
    ensures text { OnOk result (to.new.items ≡ to.old.items ++ level_lines shape positions.now) }
    ensures err { OnErr result (to.new.items ≡ to.old.items) }
{
    let mut lines = Vec::new(*to.allocator());
    put_levels(&mut lines, shape, positions)?;
    to.extend_from_slice(lines.as_slice())?;
    Ok(())
}

// Appends the lines of the levels; without memory for them some may have been appended.
fn put_levels(to: &mut Vec<u8>, shape: Shape, positions: &[u32]) -> Result<(), NoMemory>
    requires { length positions.now ≤ 8 }
    ensures { OnOk result (to.new.items ≡ to.old.items ++ level_lines shape positions.now) }
{
    for done in 0..positions.len() {
        let index = positions.len() - 1 - done;
        put_level(to, shape, index as u8 + 1, positions[index])?;
    }
    Ok(())
}

fn put_level(to: &mut Vec<u8>, shape: Shape, level: u8, positions: u32) -> Result<(), NoMemory>
    requires { IsLevel level }
    ensures { OnOk result (to.new.items ≡ to.old.items ++ line_of_level shape (level, positions)) }
{
    let line = level_line(*to.allocator(), level, node_count(shape, level), positions)?;
    to.extend_from_slice(line.as_bytes())?;
    Ok(())
}

fn level_line(alloc: Global, level: u8, nodes: u32, positions: u32) -> Result<String, AllocError>
    ensures { IfOk result (λ line. string_bytes line ≡ numbers_line level nodes positions) }
{
    format!(in alloc; "level {level} nodes {nodes} positions {positions}\n")
}

// The lines below are appended to a text of which nothing is kept where memory runs out.

/// Appends the codes of the categories.
pub fn put_categories(to: &mut Vec<u8>, categories: &[i32]) -> Result<(), NoMemory>
    ensures { OnOk result (to.new.items ≡ to.old.items ++ categories_line categories.now) }
{
    to.extend_from_slice(b"categories")?;
    push_behind_spaces(to, categories)?;
    to.push(b'\n')?;
    Ok(())
}

/// Appends the sides of the grid.
pub fn put_grid(to: &mut Vec<u8>, shape: Shape) -> Result<(), NoMemory>
    ensures { OnOk result (to.new.items ≡ to.old.items ++ grid_line shape) }
{
    let Shape { nx, ny, nz } = shape;
    let line = line_of_sides(*to.allocator(), nx, ny, nz)?;
    to.extend_from_slice(line.as_bytes())?;
    Ok(())
}

fn line_of_sides(alloc: Global, nx: u32, ny: u32, nz: u32) -> Result<String, AllocError>
    ensures { IfOk result (λ line. string_bytes line ≡ grid_line (record { nx = nx; ny = ny; nz = nz })) }
{
    format!(in alloc; "grid {nx} {ny} {nz}\n")
}

/// Appends the parts of the target.
pub fn put_target(to: &mut Vec<u8>, parts: &[u32]) -> Result<(), NoMemory>
    ensures { OnOk result (to.new.items ≡ to.old.items ++ target_line parts.now) }
{
    to.extend_from_slice(b"target")?;
    push_behind_spaces(to, parts)?;
    to.push(b'\n')?;
    Ok(())
}

/// Appends a line for each realisation, with the cells that have each category.
pub fn put_realisations(to: &mut Vec<u8>, realisations: &[Counts]) -> Result<(), NoMemory>
    ensures { OnOk result (to.new.items ≡ to.old.items ++ realisation_lines realisations.now) }
{
    for (number, counts) in realisations.iter().enumerate() {
        put_realisation(to, number, counts.as_slice())?;
    }
    Ok(())
}

fn put_realisation(to: &mut Vec<u8>, number: usize, counts: &[u32]) -> Result<(), NoMemory>
    ensures { OnOk result (to.new.items ≡ to.old.items ++ line_of_realisation (number, counts.now)) }
{
    let head = realisation_head(*to.allocator(), number)?;
    to.extend_from_slice(head.as_bytes())?;
    push_behind_spaces(to, counts)?;
    to.push(b'\n')?;
    Ok(())
}

fn realisation_head(alloc: Global, number: usize) -> Result<String, AllocError>
    ensures { IfOk result (λ head. string_bytes head ≡ codes "realisation " ++ (decimal number ++ codes " counts")) }
{
    format!(in alloc; "realisation {number} counts")
}
