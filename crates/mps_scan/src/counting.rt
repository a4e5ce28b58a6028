// The counts of the prefixes of an event, and the text that tells them, by each kind of store.
ghost use Rattle.std.specs.Prelude.{◌≡◌, All, IfOk, length, map};
ghost use Rattle.mp_values.specs.declared.choice.StoreChoice.TheVariants as choices;
ghost use Rattle.pattern_store.specs.Prefixes.{distinct_patterns};
ghost use Rattle.search_tree.specs.Nodes.{all_prefixes};
ghost use Rattle.ti_scan.specs.Event.{IsEvent};
ghost use Rattle.mps_scan.specs.Scanning.{size_of};
ghost use Rattle.mps_scan.specs.Text.{prefixes_of as prefixes_of_event, scan_text};

use crate::text::push_scan_text;
use event_retrieve::LevelPlan;
use impala_list::EventList;
use mp_base::{Counts, NoMemory};
use mp_values::StoreChoice;
use search_tree::SearchTree;
use std::alloc::Global;
use std::thread::Threads;
use ti_scan::{CountStore, Event};

/// What `scan` tells of an event under a plan, counted by a store of this choice.
pub fn counted_text<R: Threads + Sync>(
    rt: &R,
    alloc: Global,
    choice: StoreChoice,
    plan: &LevelPlan<'_>,
    event: &Event,
) -> Result<Vec<u8>, NoMemory>
    requires { IsEvent (length plan.now.source.template) event.now }
    ensures { IfOk result (λ text. text.items ≡ scan_text choice (size_of choice plan.now.source) plan.now event.now) }
{
    match choice {
        StoreChoice::Tree => tree_text(alloc, plan, event),
        StoreChoice::List => list_text(rt, alloc, plan, event),
    }
}

// By the search tree, one prefix after another.
fn tree_text(alloc: Global, plan: &LevelPlan<'_>, event: &Event) -> Result<Vec<u8>, NoMemory>
    requires { IsEvent (length plan.now.source.template) event.now }
    ensures { IfOk result (λ text. text.items ≡ scan_text choices.Tree (all_prefixes plan.now.source) plan.now event.now) }
{
    let tree = SearchTree::build(alloc, plan.eroded())?;
    let prefixes = prefixes_of(alloc, event)?;
    let counts = counts_of_each(alloc, &tree, &prefixes)?;
    let mut text = Vec::new(alloc);
    push_scan_text(
        &mut text,
        StoreChoice::Tree,
        tree.nodes(),
        plan,
        event,
        &counts,
        &tree,
    )?;
    Ok(text)
}

// By the list, all prefixes at once.
fn list_text<R: Threads + Sync>(
    rt: &R,
    alloc: Global,
    plan: &LevelPlan<'_>,
    event: &Event,
) -> Result<Vec<u8>, NoMemory>
    requires { IsEvent (length plan.now.source.template) event.now }
    ensures { IfOk result (λ text. text.items ≡ scan_text choices.List (distinct_patterns plan.now.source) plan.now event.now) }
{
    let list = EventList::build(rt, alloc, plan.eroded())?;
    let prefixes = prefixes_of(alloc, event)?;
    let counts = list.counts_many(rt, alloc, &prefixes)?;
    let mut text = Vec::new(alloc);
    push_scan_text(
        &mut text,
        StoreChoice::List,
        list.entries(),
        plan,
        event,
        &counts,
        &list,
    )?;
    Ok(text)
}

// The first data of an event, from none to all.
fn prefixes_of(alloc: Global, event: &Event) -> Result<Vec<Event>, NoMemory>
    ensures { IfOk result (λ prefixes. prefixes.items ≡ prefixes_of_event event.now) }
{
    let mut prefixes = Vec::with_capacity(alloc, usize::from(event.len()) + 1)?;
    for len in 0..event.len() + 1 {
        prefixes.push(event.prefix(len))?;
    }
    Ok(prefixes)
}

// The counts of each event, one after another.
fn counts_of_each<S: CountStore>(
    alloc: Global,
    store: &S,
    events: &[Event],
) -> Result<Vec<Counts>, NoMemory>
    requires { All (IsEvent (S.reaches store.now)) events.now }
    ensures { IfOk result (λ counts. counts.items ≡ map (S.gives store.now) events.now) }
{
    let mut counts = Vec::with_capacity(alloc, events.len())?;
    for i in 0..events.len() {
        counts.push(store.counts(&events[i]))?;
    }
    Ok(counts)
}
