//! The texts of a realisation file, and of the report of a run; and how a text goes into a file in pieces.
#![tactic(auto)]

mod facts;
mod head;
mod lines;
mod pieces;
#[cfg(test)]
mod pieces_tests;
mod report;
mod rows;
#[cfg(test)]
mod tests;

pub use facts::{LevelPositions, RealisationCounts};
pub use head::push_head;
pub use lines::{push_level_lines, push_points_line};
pub use pieces::Pieces;
pub use report::{Report, push_report};
pub use rows::{push_rows, push_rows_between};
