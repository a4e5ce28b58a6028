//! The search tree of SNESIM (Strebelle 2002): the replicates of a data event are counted without
//! a look at the training image. What is kept is the ends of its branches, the distinct patterns, in
//! the order of the branches: in blocks of 64 patterns, and groups of 64 blocks.
#![tactic(auto)]

mod forest;
mod group;
mod placing;
mod ranks;
mod refining;
mod shared;
mod summing;
#[cfg(test)]
mod tests;
mod tree;

pub use tree::SearchTree;
