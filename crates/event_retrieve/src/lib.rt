//! The plan of a level, the known event of a path node, the part of it that is retained, and the
//! category that is drawn by it; and offers of what is retained, made ahead of a node's turn.
#![tactic(auto)]

mod around;
mod drawing;
mod gather;
mod known;
mod offer;
mod plan;
mod retrieval;
mod shared;
#[cfg(test)]
mod tests;

pub use around::{Centre, Surroundings};
pub use drawing::{draw, pick_with};
pub use gather::{Gather, Wanted};
pub use known::{cat_after, event_on, known_event};
pub use offer::{Missed, Offer};
pub use plan::{LevelPlan, PlanError};
pub use retrieval::{Retained, retain};
