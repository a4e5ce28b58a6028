// The tally of all entries.
ghost use Rattle.std.specs.Prelude.{◌≡◌, ◌≤◌, ◌<◌, ◌^◌, length};
ghost use Rattle.pattern_blocks.specs.Tally.{Adds, HasRoom};
ghost use Rattle.pattern_store.specs.Gains.{IsTallied, group_gain};
ghost use Rattle.pattern_store.specs.Store.{IsStore};

use pattern_blocks::{Blocks, TALLY, tally_block};
use ti_scan::Datum;

/// Adds the numbers of each entry of a group of 64 blocks to a row of the tally: that of how many of the
/// first data of the event the entry has. Rows below `least` aren't asked for.
pub fn tally_group(blocks: &Blocks, group: u32, event: &[Datum], least: usize, tally: &mut [u32])
    requires cats { blocks.now.shown.cats ≤ 8 }
    requires group { group < 2 ^ 18 }
    requires few { length event.now ≤ 64 }
    requires least { least ≤ length event.now }
    requires tally { length tally.old ≡ 520 }
    requires room { HasRoom blocks.now.shown.cats least (group_gain blocks.now.shown blocks.now.counts group event.now) tally.old }
    ensures { Adds blocks.now.shown.cats least (group_gain blocks.now.shown blocks.now.counts group event.now) tally.old tally.new }
{
    for item in 0..64 {
        tally_block(blocks, group * 64 + item, event, 0, least, tally);
    }
}

/// The tally of an event: its row r has the numbers of the entries that have the first r data of the
/// event and not the next one. Rows below `least` aren't asked for.
pub fn tally_list(blocks: &Blocks, groups: u32, event: &[Datum], least: usize) -> [u32; TALLY]
    requires store { IsStore blocks.now.shown blocks.now.counts groups }
    requires few { length event.now ≤ 64 }
    requires least { least ≤ length event.now }
    ensures { IsTallied blocks.now.shown blocks.now.counts groups event.now least result }
{
    let mut tally = [0; TALLY];
    for group in 0..groups {
        tally_group(blocks, group, event, least, &mut tally);
    }
    tally
}
