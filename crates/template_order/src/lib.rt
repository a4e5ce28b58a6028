//! The template of a simulation: the vectors from a node to the cells that condition it, nearest
//! first.
#![tactic(auto)]

mod order;
mod template;
#[cfg(test)]
mod tests;

pub use template::Template;
