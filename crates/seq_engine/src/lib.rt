//! The simulation of realisations on one thread: level after level, and node after node of a level,
//! each from the nodes before it.
#![tactic(auto)]

mod building;
mod built;
mod kept;
mod level;
mod plan;
mod positions;
mod realisation;
#[cfg(test)]
mod recount;
mod runner;
mod setup;
mod stores;
#[cfg(test)]
mod tests;

pub use level::run_level;
pub use plan::plan_level;
pub use positions::check_positions;
pub use realisation::run_realisation;
pub use runner::{LevelRunner, OneThread};
pub use setup::{RunError, Setup};
pub use stores::{Store, StoreKind, Stores};
