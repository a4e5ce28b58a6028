//! The weights of the categories at a node, corrected towards target shares by a servosystem in
//! whole numbers, and the category that a random word picks by them.
#![tactic(auto)]

mod exact;
mod parts;
#[cfg(test)]
mod tests;

pub use exact::{pick, weights};
pub use parts::{Target, Weights};
