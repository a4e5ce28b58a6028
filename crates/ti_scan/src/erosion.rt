// Erosion, a block of cells at a time.
ghost use Rattle.std.specs.Prelude.{◌≡◌, ◌+◌, ◌<◌, ◌≤◌, ◌&&◌, OnOk, length, count_by};
ghost use Rattle.std.specs.List.{range_with_len};
ghost use Rattle.mp_base.specs.Grid.{IsShape, cells_of};
ghost use Rattle.ti_scan.specs.Eroded.{is_eroded};
ghost use Rattle.ti_scan.specs.Marks.{Keeps};
ghost use Rattle.ti_scan.specs.Window.{AddsCentres, AddsEroded, KeepsEroded, eroded_from, inside_from, is_inside};

use crate::ground::{Ground, bytes_at, own_bytes};
use crate::margins::is_within;
use crate::marks::{count_marks, keep_known, push_categories, push_marked};
use mp_base::{CellId, NoMemory, Shape};

/// How many cells are looked at together.
pub const BLOCK: u32 = 4096;

// Keeps the marks of the cells around which all is known, where the template is inside.
fn keep_surrounded(ground: &Ground<'_>, start: u32, marks: &mut [bool])
    requires some { 1 ≤ length marks.old }
    requires fits { start + length marks.old ≤ ground.now.span.cells }
    ensures { KeepsEroded ground.now.image.now ground.now.vectors.now ground.now.vectors.now (ground.now.span.first + start) marks.old marks.new }
{
    let len = marks.len();
    keep_known(marks, own_bytes(ground, start, len));
    for v in ground.vectors {
        keep_known(marks, bytes_at(ground.image, ground.span, *v, start, len));
    }
}

// Whether a marked cell stays marked.
fn stays(ground: &Ground<'_>, shape: Shape, mark: bool, cell: CellId) -> bool
    requires shape { shape ≡ ground.now.image.now.sides }
    requires sides { IsShape ground.now.image.now.sides }
    requires cell { cell < cells_of ground.now.image.now.sides }
    ensures { result ≡ (mark && is_inside ground.now.image.now.sides ground.now.vectors.now cell) }
{
    mark && is_within(ground.margins, shape, cell)
}

// Keeps the marks of the cells around which the template is inside.
fn keep_within(ground: &Ground<'_>, start: u32, marks: &mut [bool])
    requires { start + length marks.old ≤ ground.now.span.cells }
    ensures { Keeps (inside_from ground.now.image.now.sides ground.now.vectors.now (ground.now.span.first + start)) marks.old marks.new }
{
    let shape = ground.image.shape();
    let from = ground.span.first + start;
    for i in 0..marks.len() {
        let cell = CellId(from + i as u32);
        marks[i] = stays(ground, shape, marks[i], cell);
    }
}

/// Keeps the marks of the eroded positions, of the cells of the span from number `start` of it on.
pub fn keep_eroded(ground: &Ground<'_>, start: u32, marks: &mut [bool])
    requires some { 1 ≤ length marks.old }
    requires fits { start + length marks.old ≤ ground.now.span.cells }
    ensures { Keeps (eroded_from ground.now.image.now ground.now.vectors.now (ground.now.span.first + start)) marks.old marks.new }
{
    keep_surrounded(ground, start, marks);
    keep_within(ground, start, marks);
}

/// How many of the cells of a block are eroded positions.
pub fn count_block(ground: &Ground<'_>, start: u32, len: u32) -> u32
    requires some { 1 ≤ len }
    requires few { len ≤ 4096 }
    requires fits { start + len ≤ ground.now.span.cells }
    ensures { result ≡ count_by (is_eroded ground.now.image.now ground.now.vectors.now) (range_with_len (ground.now.span.first + start) len) }
{
    let mut block = [true; BLOCK as usize];
    let marks = &mut block[..len as usize];
    keep_eroded(ground, start, marks);
    count_marks(marks)
}

/// Adds the eroded positions of a block, and the categories of its cells where they're eroded.
pub fn push_block(
    ground: &Ground<'_>,
    start: u32,
    len: u32,
    positions: &mut Vec<CellId>,
    centres: &mut Vec<u8>,
) -> Result<(), NoMemory>
    requires some { 1 ≤ len }
    requires few { len ≤ 4096 }
    requires fits { start + len ≤ ground.now.span.cells }
    ensures positions { OnOk result (AddsEroded ground.now.image.now ground.now.vectors.now (ground.now.span.first + start) len positions.old.items positions.new.items) }
    ensures centres { OnOk result (AddsCentres ground.now.image.now ground.now.vectors.now (ground.now.span.first + start) len centres.old.items centres.new.items) }
{
    let _ = ground.image.shape();
    let mut block = [true; BLOCK as usize];
    let marks = &mut block[..len as usize];
    keep_eroded(ground, start, marks);
    push_marked(ground.span.first + start, marks, positions)?;
    push_categories(marks, own_bytes(ground, start, len as usize), centres)
}
