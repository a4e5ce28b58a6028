// The tally of a block.
ghost use Rattle.std.specs.Prelude.{◌≡◌, ℕ, ◌≤◌, ◌<◌, ◌^◌, length, nat_le};
ghost use Rattle.pattern_blocks.specs.Bits.{AreMarks};
ghost use Rattle.pattern_blocks.specs.Rows.{matched};
ghost use Rattle.pattern_blocks.specs.Tally.{Adds, HasRoom, block_gain};

use crate::planes::Planes;
use crate::rows::Rows;
use crate::tally::add_marked;
use ti_scan::Datum;

/// Patterns in blocks: what each shows, and how often it occurs.
#[derive(Drop)]
pub struct Blocks {
    pub shown: Rows,
    pub counts: Planes,
}

/// The items of a block that have the first `to` data of an event. All of them have the first `from`.
pub fn items_with(rows: &Rows, block: u32, event: &[Datum], from: usize, to: usize) -> u64
    requires to { to ≤ length event.now }
    requires order { from ≤ to }
    requires shown { (s : ℕ) → s < 64 → from ≤ matched rows.now block event.now s }
    ensures { AreMarks (λ s. nat_le to (matched rows.now block event.now s)) result }
{
    let mut marks = u64::MAX;
    for i in from..to {
        marks &= rows.word(block, &event[i]);
        if marks == 0 {
            return 0;
        }
    }
    marks
}

/// Adds the numbers of each item of a block to a row of the tally: that of how many of the first data
/// of the event the item has. All items have the first `from` data. Rows below `least` aren't asked
/// for.
pub fn tally_block(
    blocks: &Blocks,
    block: u32,
    event: &[Datum],
    from: usize,
    least: usize,
    tally: &mut [u32],
)
    requires cats { blocks.now.shown.cats ≤ 8 }
    requires block { block < 2 ^ 24 }
    requires few { length event.now ≤ 64 }
    requires from { from ≤ length event.now }
    requires least { least ≤ length event.now }
    requires shown { (s : ℕ) → s < 64 → from ≤ matched blocks.now.shown block event.now s }
    requires tally { length tally.old ≡ 520 }
    requires room { HasRoom blocks.now.shown.cats least (block_gain blocks.now.shown blocks.now.counts block event.now) tally.old }
    ensures { Adds blocks.now.shown.cats least (block_gain blocks.now.shown blocks.now.counts block event.now) tally.old tally.new }
{
    let cats = blocks.shown.cats();
    let start = from.max(least);
    let mut alive = items_with(&blocks.shown, block, event, from, start);
    for i in start..event.len() {
        let word = blocks.shown.word(block, &event[i]);
        let lost = alive & !word;
        alive &= word;
        add_marked(&blocks.counts, block, cats, lost, i, least, tally);
        if alive == 0 {
            return;
        }
    }
    add_marked(
        &blocks.counts,
        block,
        cats,
        alive,
        event.len(),
        least,
        tally,
    );
}
