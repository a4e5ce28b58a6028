//! The levels of a multigrid: the nodes of a level, and the template stretched for it. Level 1 is
//! the finest, and the nodes of each further level stand twice as far apart.
#![tactic(auto)]

mod level;
mod nodes;
#[cfg(test)]
mod tests;

pub use level::{on_level, spacing, stretched};
pub use nodes::{node_count, nodes_of};
