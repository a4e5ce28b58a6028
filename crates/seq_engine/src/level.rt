// The sequential simulation of a level.
ghost use Rattle.std.specs.Prelude.{◌≡◌, ◌<◌, ◌≤◌, length, slice_set, Some, None, IfOk, All};
ghost use Rattle.mp_base.specs.Cells.{category_counts};
ghost use Rattle.mp_base.specs.Grid.{cat_of, field};
ghost use Rattle.ti_scan.specs.Event.{IsEvent, StandsFor};
ghost use Rattle.event_retrieve.specs.Plan.{grid_at, cell_of, known as known_of};
ghost use Rattle.event_retrieve.specs.Sequential.{draw_word, sequential, entry_after};

use event_retrieve::{LevelPlan, Surroundings, pick_with, retain};
use mp_base::{Counts, Entry, Grid, NoMemory};
use std::alloc::Global;
use ti_scan::{CountStore, Event};

/// Node after node of the path, the entry of each from the known nodes before it: the sequential
/// simulation of a level (Strebelle 2002).
pub fn run_level<S: CountStore>(
    alloc: Global,
    plan: &LevelPlan<'_>,
    store: &S,
) -> Result<Vec<Entry>, NoMemory>
    requires { StandsFor S.gives S.reaches store.now plan.now.source }
    ensures log { IfOk result (λ log. log.items ≡ sequential plan.now) }
    ensures cats { IfOk result (λ log. All (λ e. e.cat < plan.now.source.cats) log.items) }
{
    let eroded = plan.eroded();
    let cats = eroded.cats();
    let start = plan.start();
    let around = Surroundings::new(alloc, start, eroded.template().vectors())?;
    let mut now = start.copy(alloc)?;
    let mut known = plan.start_counts();
    let mut words = plan.draw_words();
    let mut log = Vec::with_capacity(alloc, plan.length() as usize)?;
    for i in 0..plan.length() {
        let word = words.next_word();
        let event = around.event_on(&now, plan.cell_of(i));
        let entry = next_entry(plan, store, log.as_slice(), &event, &known, i, word);
        commit(&mut now, &mut known, &entry, cats);
        log.push(entry)?;
    }
    Ok(log)
}

// The entry of a path node, by its known event after the entries before it, by how many nodes have
// each category by then, and by its word.
fn next_entry<S: CountStore>(
    plan: &LevelPlan<'_>,
    store: &S,
    log: &[Entry],
    event: &Event,
    known: &Counts,
    index: u32,
    word: u32,
) -> Entry
    requires store { StandsFor S.gives S.reaches store.now plan.now.source }
    requires index { index < length plan.now.path }
    requires event { event.now ≡ known_of plan.now log.now index index }
    requires rising { IsEvent (length plan.now.source.template) event.now }
    requires known { known.now ≡ category_counts plan.now.source.cats (grid_at plan.now log.now index).cells }
    requires word { word ≡ draw_word plan.now index }
    ensures entry { result ≡ entry_after plan.now log.now index }
    ensures cell { result.cell ≡ cell_of plan.now index }
    ensures cat { result.cat < plan.now.source.cats }
{
    let _ = plan.level();
    let kept = retain(plan, event, store);
    let cat = pick_with(plan, word, &kept.counts, known);
    Entry {
        cell: plan.cell_of(index),
        cat,
    }
}

// Sets a cell that was unknown, and counts its category.
fn commit(now: &mut Grid, known: &mut Counts, entry: &Entry, cats: u8)
    requires cats { cats ≤ 8 }
    requires cell { entry.now.cell < length now.old.cells }
    requires unknown { cat_of now.old.cells entry.now.cell ≡ None }
    requires cat { entry.now.cat < cats }
    requires known { known.old ≡ category_counts cats now.old.cells }
    ensures now { now.new ≡ field now.old.sides (slice_set now.old.cells entry.now.cell (Some entry.now.cat)) }
    ensures known { known.new ≡ category_counts cats now.new.cells }
{
    let _ = now.shape();
    now.set(entry.cell, Some(entry.cat));
    known.add_one(entry.cat);
}
