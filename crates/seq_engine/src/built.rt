// Stores that are built of a level's eroded positions.
ghost use Rattle.std.specs.Prelude.{◌≡◌, IfOk};
ghost use Rattle.ti_scan.specs.Event.{Source, StandsFor};
ghost use Rattle.seq_engine.specs.Store.{built_bits, built_counts, built_reach, store_counts, store_reach};

use crate::stores::Store;
use impala_list::EventList;
use mp_base::NoMemory;
use search_tree::SearchTree;
use std::alloc::Global;
use std::thread::Threads;
use ti_scan::Eroded;

/// The kinds of stores that are built before a level is counted by them.
#[derive(Clone, Copy)]
pub enum BuiltKind {
    /// A search tree.
    Tree,
    /// A list of patterns.
    List,
}

/// A store that was built.
#[derive(Drop)]
pub enum BuiltStore {
    /// A search tree.
    Tree(SearchTree),
    /// A list of patterns.
    List(EventList),
}

impl BuiltStore {
    /// Builds a store of this kind.
    pub fn build<R: Threads + Sync>(
        rt: &R,
        alloc: Global,
        eroded: &Eroded<'_>,
        kind: BuiltKind,
    ) -> Result<BuiltStore, NoMemory>
        ensures { IfOk result (λ built. StandsFor built_counts built_reach built eroded.now) }
    {
        Ok(match kind {
            BuiltKind::Tree => BuiltStore::Tree(SearchTree::build(alloc, eroded)?),
            BuiltKind::List => BuiltStore::List(EventList::build(rt, alloc, eroded)?),
        })
    }

    /// How many bits say what its patterns show.
    pub fn bits(&self) -> u64
        ensures { result ≡ built_bits self.now }
    {
        match self {
            BuiltStore::Tree(tree) => tree.bits(),
            BuiltStore::List(list) => list.bits(),
        }
    }

    /// The store to count by.
    pub fn as_store(&self) -> Store<'_>
        ensures { (source : Source) → StandsFor built_counts built_reach self.now source → StandsFor store_counts store_reach result source }
    {
        match self {
            BuiltStore::Tree(tree) => Store::Tree(tree),
            BuiltStore::List(list) => Store::List(list),
        }
    }
}
