//! Random words by their place, the random path over the nodes of a level, and the ranks of cells
//! on a path.
#![tactic(auto)]

mod order;
mod ranks;
#[cfg(test)]
mod tests;
mod words;

pub use order::draw_path;
pub use ranks::Ranks;
pub use words::{WordCursor, Words, stream_of};
