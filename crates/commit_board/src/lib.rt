//! The board of a level: nodes are claimed, offers of what is retained of their events are kept,
//! and the front's is committed in its turn.
#![tactic(auto)]

mod board;
mod claim;
mod keep;
mod settle;
mod shared;
#[cfg(test)]
mod tests;
mod vet;
#[cfg(test)]
mod vet_tests;
mod word;

pub use board::Board;
pub use claim::{Claim, Ticket};
pub use keep::Keep;
pub use settle::Settle;
pub use vet::OfferFault;
