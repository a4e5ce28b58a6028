// Counting the replicates of an event, a block of cells at a time.
ghost use Rattle.std.specs.Prelude.{◌≡◌, ℕ, ◌+◌, ◌<◌, ◌≤◌, length, slice_index};
ghost use Rattle.mp_base.specs.Grid.{cells_of};
ghost use Rattle.ti_scan.specs.Event.{IsEvent};
ghost use Rattle.ti_scan.specs.Window.{AddsFound, AreAround, AreCentres, IsSpan, KeepsShown, is_inside};

use crate::eroded::Eroded;
use crate::erosion::BLOCK;
use crate::event::Event;
use crate::ground::bytes_at;
use crate::margins::Span;
use crate::marks::{add_marked, keep_category};

// The bytes at a position of the template around `len` cells of the span, from number `start` of
// it on.
fn bytes_around<'a>(
    source: &Eroded<'a>,
    span: Span,
    position: u8,
    start: u32,
    len: usize,
) -> &'a [u8]
    requires span { IsSpan (is_inside source.now.image.sides source.now.template) (cells_of source.now.image.sides) span.first span.cells }
    requires first { 1 ≤ position }
    requires last { position ≤ length source.now.template }
    requires some { 1 ≤ len }
    requires fits { start + len ≤ span.cells }
    ensures { AreAround source.now position (span.first + start) len result.now }
{
    let v = source.template().vectors()[position as usize - 1];
    bytes_at(source.image(), span, v, start, len)
}

// Keeps the marks of the eroded positions that show each datum.
fn keep_shown(source: &Eroded<'_>, span: Span, event: &Event, start: u32, marks: &mut [bool])
    requires span { IsSpan (is_inside source.now.image.sides source.now.template) (cells_of source.now.image.sides) span.first span.cells }
    requires event { IsEvent (length source.now.template) event.now }
    requires some { 1 ≤ length marks.old }
    requires fits { start + length marks.old ≤ span.cells }
    ensures { KeepsShown source.now event.now (span.first + start) marks.old marks.new }
{
    let len = marks.len();
    for datum in event.items() {
        let bytes = bytes_around(source, span, datum.position, start, len);
        keep_category(marks, bytes, datum.cat.0);
    }
}

/// Adds the replicates of an event among the cells of a block, by the category at their centre.
/// `centres` has the category of each eroded position of the span.
pub fn scan_block(
    source: &Eroded<'_>,
    span: Span,
    centres: &[u8],
    event: &Event,
    start: u32,
    len: u32,
    parts: &mut [u32],
)
    requires centres { AreCentres source.now span.first centres.now }
    requires cells { length centres.now ≡ span.cells }
    requires event { IsEvent (length source.now.template) event.now }
    requires some { 1 ≤ len }
    requires few { len ≤ 4096 }
    requires fits { start + len ≤ span.cells }
    requires cats { source.now.cats ≤ 8 }
    requires parts { source.now.cats ≤ length parts.old }
    requires room { (k : ℕ) → k < source.now.cats → slice_index parts.old k ≤ start }
    ensures { AddsFound source.now event.now (span.first + start) len parts.old parts.new }
{
    let mut block = [true; BLOCK as usize];
    let marks = &mut block[..len as usize];
    keep_shown(source, span, event, start, marks);
    let own = &centres[start as usize..start as usize + len as usize];
    add_marked(parts, source.cats(), marks, own);
}
