// The tally of all groups.
ghost use Rattle.std.specs.Prelude.{◌≤◌, length};
ghost use Rattle.pattern_store.specs.Gains.{IsTallied};
ghost use Rattle.search_tree.specs.Groups.{IsTree};

use crate::group::{Groups, tally_group};
use pattern_blocks::{Blocks, TALLY};
use ti_scan::Datum;

/// The tally of an event: its row r has the numbers of the patterns that have the first r data of
/// the event and not the next one. Rows below `least` aren't asked for.
pub fn tally_groups(blocks: &Blocks, groups: &Groups, event: &[Datum], least: usize) -> [u32; TALLY]
    requires tree { IsTree blocks.now.shown blocks.now.counts groups.now.any groups.now.all groups.now.totals groups.now.count }
    requires few { length event.now ≤ 64 }
    requires least { least ≤ length event.now }
    ensures { IsTallied blocks.now.shown blocks.now.counts groups.now.count event.now least result }
{
    let mut tally = [0; TALLY];
    for group in 0..groups.count {
        tally_group(blocks, groups, group, event, least, &mut tally);
    }
    tally
}
