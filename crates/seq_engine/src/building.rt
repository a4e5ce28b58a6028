// Stores of several levels, built side by side.
ghost use Rattle.std.specs.Prelude.{◌≡◌, ◌+◌, ◌<◌, ◌≤◌, IfOk, IfSome};
ghost use Rattle.seq_engine.specs.Setup.{IsSetup};
ghost use Rattle.seq_engine.specs.Realisation.{source_of};

use crate::built::{BuiltKind, BuiltStore};
use crate::kept::{KeptStore, KeptStores};
use crate::setup::Setup;
use mp_base::NoMemory;
use multigrid::stretched;
use std::alloc::Global;
use std::thread::{Threads, map_indices};
use ti_scan::Eroded;

/// Builds and keeps the stores of all levels, as many at once as there are threads. Where memory runs
/// out, or where enough is kept, fewer are.
pub(crate) fn keep_levels<R: Threads + Sync>(
    rt: &R,
    alloc: Global,
    setup: &Setup,
    threads: u8,
    kind: BuiltKind,
    kept: &mut KeptStores,
)
    requires setup { IsSetup setup.now }
    requires threads { 1 ≤ threads }
{
    let mut done = 0;
    while done < setup.levels {
        let count = threads.min(setup.levels - done);
        keep_batch(rt, alloc, setup, done, count, kind, kept);
        done += count;
    }
}

// Builds the stores of so many levels above the first `done`, each in a thread of its own, and then
// keeps them.
fn keep_batch<R: Threads + Sync>(
    rt: &R,
    alloc: Global,
    setup: &Setup,
    done: u8,
    count: u8,
    kind: BuiltKind,
    kept: &mut KeptStores,
)
    requires setup { IsSetup setup.now }
    requires levels { done + count ≤ setup.now.levels }
{
    let shared = &*kept;
    let build = |index: usize| -> Result<Option<KeptStore>, NoMemory>
        requires { IsSetup setup.now × (done + index < setup.now.levels) }
    { new_store(rt, alloc, setup, done + index as u8 + 1, kind, shared) };
    let Ok(built) = map_indices(rt, alloc, usize::from(count), &build) else {
        return;
    };
    for store in built {
        if let Ok(Some(store)) = store {
            kept.put(store);
        }
    }
}

// The store of a level, unless one is kept already.
fn new_store<R: Threads + Sync>(
    rt: &R,
    alloc: Global,
    setup: &Setup,
    level: u8,
    kind: BuiltKind,
    kept: &KeptStores,
) -> Result<Option<KeptStore>, NoMemory>
    requires setup { IsSetup setup.now }
    requires some { 1 ≤ level }
    requires most { level ≤ setup.now.levels }
    ensures { IfOk result (λ built. IfSome built (λ store. store.source ≡ source_of setup.now level)) }
{
    let template = stretched(alloc, &setup.template, level)?;
    let eroded = Eroded::new(alloc, &setup.image, &template, setup.cats)?;
    if kept.find(&eroded).is_some() {
        return Ok(None);
    }
    let built = BuiltStore::build(rt, alloc, &eroded, kind)?;
    let store = KeptStore::new(alloc, &eroded, built)?;
    Ok(Some(store))
}
