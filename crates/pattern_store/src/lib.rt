//! Stores of patterns: the distinct patterns that a training image shows under a template, in blocks of
//! 64 and groups of 64 blocks, with the counts of each. A store gives each pattern a place and finds the
//! patterns that have a data event; what it shows, how it is built and what follows from a tally stand here.
#![tactic(auto)]

mod answering;
mod building;
mod counting;
mod drawing;
mod filling;
mod longest;
mod picking;
mod slots;

pub use answering::{counts_of, longest_of};
pub use building::{PER_GROUP, blocks_of};
pub use filling::read_shown;
pub use slots::slot;
