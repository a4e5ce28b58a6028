//! Workers, which simulate a level together: each claims path nodes, counts them ahead of their turn
//! without a lock, and offers what it counted to the board, which commits node after node. The log
//! is that of the sequential simulation, whatever the interleaving.
#![tactic(auto)]

mod bench;
#[cfg(test)]
mod call_tests;
mod runner;
mod shared;
mod sim;
mod speculation;
#[cfg(test)]
mod tests;
mod workers;

pub use bench::{Bench, Foreign, Pushed};
pub use runner::Workers;
pub use sim::{Helper, Sim};
pub use speculation::Spec;
pub use workers::{run_level_by, run_workers};
