//! Training images under a template: the eroded positions, data events, and how often the image
//! shows an event.
#![tactic(auto)]

mod eroded;
mod erosion;
mod event;
mod ground;
mod margins;
mod marks;
mod scan;
mod shared;
mod store;
#[cfg(test)]
mod tests;

pub use eroded::{Eroded, cat_from, count_positions};
pub use event::{Datum, Event};
pub use ground::{Ground, ground_of};
pub use margins::{Margin, Margins, Span, is_within};
pub use store::{CountStore, LongestPrefix};
