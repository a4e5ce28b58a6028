// Where a grid lies.
use crate::shape::Shape;

/// A grid in space. The origin is the centre of the first cell. Lengths are in millionths.
#[derive(Clone, Copy, Debug, PartialEq, Eq)]
pub struct Frame {
    pub shape: Shape,
    pub origin: [i64; 3],
    pub size: [i64; 3],
}
