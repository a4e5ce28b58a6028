//! The list of IMPALA (Straubhaar et al. 2011): the distinct patterns of a training image, with the
//! counts of each. The replicates of a data event are those of all entries that have its data. It is
//! built, and split for many events at once, between the processors.
#![tactic(auto)]

mod keys;
mod list;
mod many;
mod ranking;
mod shared;
mod tally;
#[cfg(test)]
mod tests;

pub use list::EventList;
