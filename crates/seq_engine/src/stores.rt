// The stores that levels are counted by.
ghost use Rattle.std.specs.Prelude.{◌≡◌, ◌<◌, ◌≤◌, All, IfOk};
ghost use Rattle.ti_scan.specs.Event.{StandsFor};
ghost use Rattle.event_retrieve.specs.Sequential.{sequential};
ghost use Rattle.seq_engine.specs.Setup.{IsSetup};
ghost use Rattle.seq_engine.specs.Store.{store_counts, store_reach};

use crate::building::keep_levels;
use crate::built::{BuiltKind, BuiltStore};
use crate::kept::KeptStores;
use crate::setup::Setup;
use event_retrieve::LevelPlan;
use impala_list::EventList;
use mp_base::{Counts, Entry, NoMemory};
use search_tree::SearchTree;
use std::alloc::Global;
use std::marker::Model;
use std::thread::Threads;
use ti_scan::{CountStore, Eroded, Event, LongestPrefix};

/// How replicates are counted.
#[derive(Clone, Copy, Debug, PartialEq, Eq)]
pub enum StoreKind {
    /// By a look at every eroded position.
    Scan,
    /// By a search tree for each level. Levels over the same image and template share theirs.
    Tree,
    /// By a list of patterns for each level, shared likewise.
    List,
}

/// A store of any kind.
#[derive(Clone, Copy)]
pub enum Store<'a> {
    /// The eroded positions of a level.
    Scan(&'a Eroded<'a>),
    /// Their search tree.
    Tree(&'a SearchTree),
    /// The list of their patterns.
    List(&'a EventList),
}

impl<'a> CountStore for Store<'a> {
    ghost use Rattle.seq_engine.specs.Store.{store-falls, store_counts, store_reach};

    ghost gives = { λ store event. store_counts store event };

    ghost reaches = { store_reach };

    ghost falls = { λ store event m k le. store-falls store event m k le };

    fn counts(&self, event: &Event) -> Counts {
        match self {
            Store::Scan(eroded) => eroded.counts(event),
            Store::Tree(tree) => tree.counts(event),
            Store::List(list) => list.counts(event),
        }
    }

    fn longest_prefix(&self, event: &Event, most: u8, min: u32) -> LongestPrefix {
        match self {
            Store::Scan(eroded) => eroded.longest_prefix(event, most, min),
            Store::Tree(tree) => tree.longest_prefix(event, most, min),
            Store::List(list) => list.longest_prefix(event, most, min),
        }
    }
}

/// The stores of all levels that a runner simulates. To a caller they are the way in which they
/// count: what they keep changes no answer.
#[derive(Drop)]
pub struct Stores {
    kind: StoreKind,
    // Whether a store is kept once its level was run.
    keeps: bool,
    // The stores that were built, for further realisations: there are none before the first.
    kept: Option<KeptStores>,
}

impl Model for Stores {
    ghost use Rattle.seq_engine.specs.declared.stores.StoreKind.{StoreKind};

    ghost Value = { StoreKind };

    ghost view = { λ stores. stores.kind };
}

impl Stores {
    /// Stores of this kind, of which none is built yet. Each is kept for further realisations.
    pub fn new(kind: StoreKind) -> Stores
        ensures { result ≡ kind }
    {
        Stores {
            kind,
            keeps: true,
            kept: None,
        }
    }

    /// The same for one realisation, in which each level has a store of its own: it is let go with its
    /// level, so that no two stand in memory.
    pub fn for_one_realisation(kind: StoreKind) -> Stores
        ensures { result ≡ kind }
    {
        Stores {
            kind,
            keeps: false,
            kept: None,
        }
    }

    /// Builds the stores of all levels of a setup side by side, at most so many at once, for the levels
    /// to come. It changes no answer: the run of a level builds the store that it doesn't find, so where
    /// memory runs out here, or where the stores would take too much, fewer are kept. Stores that scan
    /// build nothing.
    pub fn prepare<R: Threads + Sync>(&mut self, rt: &R, alloc: Global, setup: &Setup, threads: u8)
        requires setup { IsSetup setup.now }
        requires threads { 1 ≤ threads }
        ensures { self.new ≡ self.old }
    {
        if let Some(kind) = built_kind(self.kind) {
            let mut kept = self.take_kept(alloc);
            keep_levels(rt, alloc, setup, threads, kind, &mut kept);
            self.kept = Some(kept);
        }
    }

    // Takes the kept stores out.
    fn take_kept(&mut self, alloc: Global) -> KeptStores
        ensures { self.new ≡ self.old }
    {
        match self.kept.take() {
            Some(kept) => kept,
            None => KeptStores::new(alloc),
        }
    }

    /// What `simulate` makes of a level over its store: one that was kept, or else a new one. It has
    /// to give what the sequential simulation of the level defines, over any store that counts right.
    pub fn run<
        R: Threads + Sync,
        F: Fn(Global, &LevelPlan<'_>, Store<'_>) -> Result<Vec<Entry>, NoMemory>,
    >(
        &mut self,
        rt: &R,
        alloc: Global,
        plan: &LevelPlan<'_>,
        simulate: &F,
    ) -> Result<Vec<Entry>, NoMemory>
        requires may { (alloc : _) (plan : _) (store : _) → StandsFor store_counts store_reach store plan.now.source
            → F.pre simulate.now alloc plan store }
        requires runs { (alloc : _) (plan : _) (store : _) (log : _) → F.post simulate.now alloc plan store log
            → IfOk log (λ log. log.items ≡ sequential plan.now) }
        requires below { (alloc : _) (plan : _) (store : _) (log : _) → F.post simulate.now alloc plan store log
            → IfOk log (λ log. All (λ e. e.cat < plan.now.source.cats) log.items) }
        ensures log { IfOk result (λ log. log.items ≡ sequential plan.now) }
        ensures cats { IfOk result (λ log. All (λ e. e.cat < plan.now.source.cats) log.items) }
        ensures same { self.new ≡ self.old }
    {
        match built_kind(self.kind) {
            None => simulate(alloc, plan, Store::Scan(plan.eroded())),
            Some(kind) => {
                let mut kept = self.take_kept(alloc);
                let log = run_built(rt, alloc, plan, kind, &mut kept, simulate);
                if self.keeps {
                    self.kept = Some(kept);
                }
                log
            }
        }
    }
}

// The kind of the stores that are built, if any are.
fn built_kind(kind: StoreKind) -> Option<BuiltKind> {
    match kind {
        StoreKind::Scan => None,
        StoreKind::Tree => Some(BuiltKind::Tree),
        StoreKind::List => Some(BuiltKind::List),
    }
}

// The same by a store that is built: a kept one, or else a new one.
fn run_built<
    R: Threads + Sync,
    F: Fn(Global, &LevelPlan<'_>, Store<'_>) -> Result<Vec<Entry>, NoMemory>,
>(
    rt: &R,
    alloc: Global,
    plan: &LevelPlan<'_>,
    kind: BuiltKind,
    kept: &mut KeptStores,
    simulate: &F,
) -> Result<Vec<Entry>, NoMemory>
    requires may { (alloc : _) (plan : _) (store : _) → StandsFor store_counts store_reach store plan.now.source
        → F.pre simulate.now alloc plan store }
    requires runs { (alloc : _) (plan : _) (store : _) (log : _) → F.post simulate.now alloc plan store log
        → IfOk log (λ log. log.items ≡ sequential plan.now) }
    requires below { (alloc : _) (plan : _) (store : _) (log : _) → F.post simulate.now alloc plan store log
        → IfOk log (λ log. All (λ e. e.cat < plan.now.source.cats) log.items) }
    ensures log { IfOk result (λ log. log.items ≡ sequential plan.now) }
    ensures cats { IfOk result (λ log. All (λ e. e.cat < plan.now.source.cats) log.items) }
{
    let eroded = plan.eroded();
    if let Some(store) = kept.find(eroded) {
        return simulate(alloc, plan, store.as_store());
    }
    let store = BuiltStore::build(rt, alloc, eroded, kind)?;
    let log = simulate(alloc, plan, store.as_store())?;
    kept.keep(alloc, eroded, store);
    Ok(log)
}
