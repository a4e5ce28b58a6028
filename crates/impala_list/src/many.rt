// Counts of many events.
ghost use Rattle.std.specs.Prelude.{◌≡◌, ℕ, ◌+◌, ◌*◌, ◌<◌, ◌≤◌, ◌^◌, [], IfOk, length, map, slice_index, slice_index_or};
ghost use Rattle.std.specs.List.{range_with_len};
ghost use Rattle.pattern_store.specs.Longest.{prefix_counts};
ghost use Rattle.pattern_store.specs.Store.{IsStore};
ghost use Rattle.impala_list.specs.Parts.{AddsCounts, HasPart, group_counts, part_at, part_sum};

use crate::tally::tally_group;
use mp_base::{Cat, Counts, NoMemory};
use pattern_blocks::{Blocks, ROW, TALLY};
use rayon::prelude::*;
use std::alloc::Global;
use std::thread::Threads;
use ti_scan::{Datum, Event};

// How many replicates of the event among the entries of a group have each category at their centre.
fn count_group(blocks: &Blocks, _groups: u32, group: u32, event: &[Datum]) -> Counts
    requires store { IsStore blocks.now.shown blocks.now.counts _groups }
    requires group { group < _groups }
    requires few { length event.now ≤ 64 }
    ensures { result ≡ group_counts blocks.now.shown blocks.now.counts group event.now }
{
    let row = event.len() * ROW;
    let mut tally = [0; TALLY];
    tally_group(blocks, group, event, event.len(), &mut tally);
    Counts::of(&tally[row..row + blocks.shown.cats() as usize])
}

// The counts of each event by the entries of each group: of all events for the first group, then for
// the next one, and so on.
fn parts_of(
    rt: &(impl Threads + Sync),
    alloc: Global,
    blocks: &Blocks,
    groups: u32,
    events: &[Event],
) -> Result<Vec<Counts>, NoMemory>
    requires { IsStore blocks.now.shown blocks.now.counts groups }
    ensures { IfOk result (λ parts. parts.items ≡ map (part_at blocks.now.shown blocks.now.counts events.now) (range_with_len 0 (groups * length events.now))) }
{
    let Some(count) = events.len().checked_mul(groups as usize) else {
        return Err(NoMemory);
    };
    let parts = (0..count)
        .into_par_iter()
        .with_min_len(1)
        .map(
            |i: usize| -> Counts
                requires { HasPart blocks.now.shown blocks.now.counts groups events.now i }
                ensures { result ≡ part_at blocks.entry.now.shown blocks.entry.now.counts events.entry.now i }
            {
                let event = &events[i % events.len()];
                count_group(blocks, groups, (i / events.len()) as u32, event.items())
            },
        )
        .collect(rt, alloc)?;
    Ok(parts)
}

// Adds counts to sums by category.
fn add_counts(counts: &Counts, sums: &mut [u32; ROW])
    requires { (k : ℕ) → k < length counts.now → slice_index sums.old k + slice_index counts.now k < 2 ^ 32 }
    ensures { AddsCounts counts.now sums.old sums.new }
{
    for cat in 0..counts.len() {
        sums[cat as usize] += counts.get(Cat(cat));
    }
}

// The sums over all groups of the parts of one of so many events.
fn sum_of_parts(parts: &[Counts], cats: u8, groups: u32, events: usize, event: usize) -> Counts
    requires cats { cats ≤ 8 }
    requires event { event < events }
    requires count { length parts.now ≡ groups * events }
    requires wide { (i : ℕ) → i < length parts.now → length (slice_index_or parts.now i []) ≡ cats }
    requires room { (k : ℕ) → k < cats → part_sum parts.now events event groups k < 2 ^ 32 }
    ensures { result ≡ map (part_sum parts.now events event groups) (range_with_len 0 cats) }
{
    let mut sums = [0; ROW];
    for group in 0..groups {
        add_counts(&parts[group as usize * events + event], &mut sums);
    }
    Counts::of(&sums[..cats as usize])
}

/// The counts of each event. The work is split by groups of entries as by events.
pub fn many_counts(
    rt: &(impl Threads + Sync),
    alloc: Global,
    blocks: &Blocks,
    groups: u32,
    events: &[Event],
) -> Result<Vec<Counts>, NoMemory>
    requires { IsStore blocks.now.shown blocks.now.counts groups }
    ensures { IfOk result (λ many. many.items ≡ map (λ event. prefix_counts blocks.now.shown blocks.now.counts groups event (length event)) events.now) }
{
    let cats = blocks.shown.cats();
    let parts = parts_of(rt, alloc, blocks, groups, events)?;
    let mut many = Vec::with_capacity(alloc, events.len())?;
    for event in 0..events.len() {
        many.push(sum_of_parts(&parts, cats, groups, events.len(), event))?;
    }
    Ok(many)
}
