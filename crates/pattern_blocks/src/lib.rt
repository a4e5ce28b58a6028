//! Patterns in blocks of 64, for the stores that keep the distinct patterns of a training image
//! (as Straubhaar et al. 2011 do in a list): one word says which patterns of a block have a category
//! at a template position, and their numbers of replicates are planes of bits. So one `&` compares
//! 64 patterns with a datum, and a few bit counts add up the numbers of those that have it.
#![tactic(auto)]

mod block;
mod filling;
mod planes;
mod rows;
mod tally;
mod words;

pub use block::{Blocks, items_with, tally_block};
pub use filling::mark_shown;
pub use planes::Planes;
pub use rows::Rows;
pub use tally::{ROW, TALLY, add_marked};
pub use words::{every_rows, some_rows};
