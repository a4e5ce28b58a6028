//! The cells of one level as words that threads read without a lock, while one writer stores the
//! entries of a log.
#![tactic(auto)]

mod grid;
mod names;
mod passes;
mod rule;
mod shared;
#[cfg(test)]
mod tests;
mod words;

pub use grid::{Cells, CellsWriter, SharedGrid};
pub use names::{Naming, Site};
pub use passes::{Reader, Writer};
