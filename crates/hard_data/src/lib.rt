//! Hard data and the levels of a multigrid: which cells get a datum from points, what is known at the
//! start of a level, and what stays of it afterwards.
#![tactic(auto)]

mod axis;
mod moves;
mod nearest;
#[cfg(test)]
mod point_tests;
mod points;
#[cfg(test)]
mod start_tests;

pub use moves::{Move, Start, relocate, take_away};
pub use points::{Placed, points_to_cells};
