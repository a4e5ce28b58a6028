// From a tally to the counts of prefixes.
ghost use Rattle.std.specs.Prelude.{ℕ, ◌*◌, ◌+◌, ◌<◌, ◌≤◌, ◌^◌, IfNone, IfSome, length, slice_index};
ghost use Rattle.pattern_store.specs.Gains.{IsTallied};
ghost use Rattle.pattern_store.specs.Longest.{AddsRow, IsLongest, rows_from};

use mp_base::Counts;
use pattern_blocks::{Blocks, ROW, TALLY};
use ti_scan::{Datum, LongestPrefix};

/// Adds a row of a tally to sums by category.
pub fn add_row(tally: &[u32; TALLY], row: usize, cats: u8, parts: &mut [u32; ROW])
    requires cats { cats ≤ 8 }
    requires row { row ≤ 64 }
    requires room { (k : ℕ) → k < cats → slice_index parts.old k + slice_index tally.now (row * 8 + k) < 2 ^ 32 }
    ensures { AddsRow tally.now row cats parts.old parts.new }
{
    for cat in 0..cats {
        parts[cat as usize] += tally[row * ROW + cat as usize];
    }
}

/// The longest prefix with at least `min` replicates, if it has at least `least` data; with `least`
/// 0 there is one.
pub fn longest_in(
    blocks: &Blocks,
    _groups: u32,
    event: &[Datum],
    least: usize,
    tally: &[u32; TALLY],
    min: u32,
) -> Option<LongestPrefix>
    requires cats { blocks.now.shown.cats ≤ 8 }
    requires few { length event.now ≤ 64 }
    requires least { least ≤ length event.now }
    requires tally { IsTallied blocks.now.shown blocks.now.counts _groups event.now least tally.now }
    requires room { (row k : ℕ) → k < blocks.now.shown.cats → rows_from blocks.now.shown blocks.now.counts _groups event.now row k < 2 ^ 32 }
    ensures some { IfSome result (λ longest. IsLongest blocks.now.shown blocks.now.counts _groups event.now min longest.len longest.counts) }
    ensures none { IfNone result (0 < least) }
{
    let cats = blocks.shown.cats();
    let mut parts = [0; ROW];
    let mut len = event.len();
    loop {
        add_row(tally, len, cats, &mut parts);
        let counts = Counts::of(&parts[..cats as usize]);
        if counts.total() >= u64::from(min) || len == 0 {
            return Some(LongestPrefix {
                len: len as u8,
                counts,
            });
        }
        if len == least {
            return None;
        }
        len -= 1;
    }
}
