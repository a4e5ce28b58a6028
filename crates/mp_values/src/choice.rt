// Which store is built.

/// Where the counts of a simulation come from: a search tree, or a list of events.
#[derive(Clone, Copy, Debug, PartialEq, Eq)]
pub enum StoreChoice {
    Tree,
    List,
}
