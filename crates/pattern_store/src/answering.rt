// Counts of events and of their longest prefixes, by the tally of a store.
ghost use Rattle.std.specs.Prelude.{◌≡◌, ℕ, ◌<◌, ◌≤◌, length};
ghost use Rattle.pattern_store.specs.Gains.{TalliesFrom};
ghost use Rattle.pattern_store.specs.Longest.{IsLongest, prefix_counts};
ghost use Rattle.pattern_store.specs.Store.{IsStore};

use crate::longest::{add_row, longest_in};
use mp_base::Counts;
use pattern_blocks::{Blocks, ROW, TALLY};
use ti_scan::{Datum, LongestPrefix};

/// How many replicates of the event have each category at their centre. `tally` gives the tally of the
/// event, of which the rows from a least one on are asked for.
pub fn counts_of<F: Fn(usize) -> [u32; TALLY]>(
    blocks: &Blocks,
    groups: u32,
    event: &[Datum],
    tally: F,
) -> Counts
    requires store { IsStore blocks.now.shown blocks.now.counts groups }
    requires few { length event.now ≤ 64 }
    requires may { (least : ℕ) → least ≤ length event.now → F.pre tally least }
    requires tallies { TalliesFrom (F.post tally) blocks.now.shown blocks.now.counts groups event.now }
    ensures { result ≡ prefix_counts blocks.now.shown blocks.now.counts groups event.now (length event.now) }
{
    let cats = blocks.shown.cats();
    let len = event.len();
    let rows = tally(len);
    let mut parts = [0; ROW];
    add_row(&rows, len, cats, &mut parts);
    Counts::of(&parts[..cats as usize])
}

// The next number of data from which rows are asked for.
fn next_least(least: usize) -> usize
    requires some { 0 < least }
    requires few { least ≤ 64 }
    ensures { result < least }
{
    if least > 3 { least * 3 / 4 } else { 0 }
}

/// The longest prefix of the event with at least `min` replicates, or the empty one. Rows of many
/// data are asked for first, and others only where these don't have enough.
pub fn longest_of<F: Fn(usize) -> [u32; TALLY]>(
    blocks: &Blocks,
    groups: u32,
    event: &[Datum],
    min: u32,
    tally: F,
) -> LongestPrefix
    requires store { IsStore blocks.now.shown blocks.now.counts groups }
    requires few { length event.now ≤ 64 }
    requires may { (least : ℕ) → least ≤ length event.now → F.pre tally least }
    requires tallies { TalliesFrom (F.post tally) blocks.now.shown blocks.now.counts groups event.now }
    ensures { IsLongest blocks.now.shown blocks.now.counts groups event.now min result.len result.counts }
{
    let mut least = event.len() * 4 / 5;
    loop {
        let rows = tally(least);
        if let Some(longest) = longest_in(blocks, groups, event, least, &rows, min) {
            return longest;
        }
        least = next_least(least);
    }
}
