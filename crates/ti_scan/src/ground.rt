// An image and a template, and where the template is inside around its cells.
ghost use Rattle.std.specs.Prelude.{◌≡◌, ℕ, ◌+◌, ◌<◌, ◌≤◌, is_some, true};
ghost use Rattle.mp_base.specs.Grid.{cell_at, cells_of};
ghost use Rattle.ti_scan.specs.Window.{AreAt, AreOwn, IsGround};

use crate::margins::{Margins, Span, margins_of, span_of};
use mp_base::{CellId, Grid, Vector};

/// An image and a template, with the margins that it needs and the cells around which it is inside.
#[derive(Clone, Copy)]
pub struct Ground<'a> {
    pub image: &'a Grid,
    pub vectors: &'a [Vector],
    pub margins: Margins,
    pub span: Span,
    ghost inside: { IsGround image.now.sides vectors.now margins span.first span.cells },
}

/// The ground of a template on an image.
pub fn ground_of<'a>(image: &'a Grid, vectors: &'a [Vector]) -> Ground<'a>
    ensures image { result.image.now ≡ image.now }
    ensures vectors { result.vectors.now ≡ vectors.now }
{
    let margins = margins_of(vectors);
    Ground {
        image,
        vectors,
        margins,
        span: span_of(margins, image.shape()),
    }
}

/// The bytes at a vector from `len` cells of the span, from number `start` of it on.
pub fn bytes_at<'a>(image: &'a Grid, span: Span, v: Vector, start: u32, len: usize) -> &'a [u8]
    requires begins { is_some (cell_at image.now.sides span.first v) ≡ true }
    requires ends { (last : ℕ) → last + 1 ≡ span.first + span.cells → is_some (cell_at image.now.sides last v) ≡ true }
    requires within { span.first + span.cells ≤ cells_of image.now.sides }
    requires some { 1 ≤ len }
    requires fits { start + len ≤ span.cells }
    ensures { AreAt image.now v (span.first + start) len result.now }
{
    let Some(shifted) = image.shape().step(CellId(span.first), v) else {
        unreachable!()
    };
    let bytes = image.as_bytes();
    let from = shifted.0 as usize + start as usize;
    let end = from + len;
    prove!(end <= bytes.len());
    &bytes[from..end]
}

/// The bytes of `len` cells of the span, from number `start` of it on.
pub fn own_bytes<'a>(ground: &Ground<'a>, start: u32, len: usize) -> &'a [u8]
    requires { start + len ≤ ground.now.span.cells }
    ensures { AreOwn ground.now.image.now (ground.now.span.first + start) len result.now }
{
    let bytes = ground.image.as_bytes();
    let from = ground.span.first as usize + start as usize;
    let end = from + len;
    prove!(end <= bytes.len());
    &bytes[from..end]
}
