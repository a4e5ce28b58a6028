//! Shapes, cells, categories, counts and grids. Numbers as text are passed on for the crates above.
#![tactic(auto)]

mod cell;
mod codes;
mod counts;
mod frame;
mod grid;
mod shape;

pub use cell::{Cat, CellId, Entry, Vector};
pub use codes::{CodeList, Codes};
pub use counts::Counts;
pub use frame::Frame;
pub use grid::Grid;
pub use mp_number::{
    Micro, NoMemory, NumberFault, Printed, all_digits, push_behind_spaces, push_micro, push_spaced,
    push_whole, read_micro, read_whole, short_number,
};
pub use shape::{BadShape, Shape};
