// The tally of a group of 64 blocks.
ghost use Rattle.std.specs.Prelude.{◌≡◌, ℕ, ◌+◌, ◌*◌, ◌≤◌, ◌<◌, ◌^◌, length};
ghost use Rattle.std.specs.Int.{bit_at};
ghost use Rattle.pattern_blocks.specs.Rows.{matched};
ghost use Rattle.pattern_blocks.specs.Tally.{Adds, HasRoom};
ghost use Rattle.pattern_store.specs.Gains.{group_gain};
ghost use Rattle.search_tree.specs.Groups.{HoldsRest, SumsUp, open_gain};

use pattern_blocks::{Blocks, Planes, Rows, add_marked, items_with, tally_block};
use ti_scan::Datum;

/// Groups of 64 blocks each: the data that some pattern of a block has, those that all of its
/// patterns have, and the sums of its numbers.
#[derive(Drop)]
pub struct Groups {
    pub any: Rows,
    pub all: Rows,
    pub totals: Planes,
    pub count: u32,
}

// Tallies the marked blocks of a group, each of whose patterns has the first `from` data.
fn tally_open(
    blocks: &Blocks,
    group: u32,
    entered: u64,
    event: &[Datum],
    from: usize,
    least: usize,
    tally: &mut [u32],
)
    requires cats { blocks.now.shown.cats ≤ 8 }
    requires group { group < 2 ^ 18 }
    requires few { length event.now ≤ 64 }
    requires from { from ≤ length event.now }
    requires least { least ≤ length event.now }
    requires shown { (s : ℕ) → s < 64 → bit_at entered s ≡ 1 → (u : ℕ) → u < 64 → from ≤ matched blocks.now.shown (group * 64 + s) event.now u }
    requires tally { length tally.old ≡ 520 }
    requires room { HasRoom blocks.now.shown.cats least (open_gain blocks.now.shown blocks.now.counts group entered event.now) tally.old }
    ensures { Adds blocks.now.shown.cats least (open_gain blocks.now.shown blocks.now.counts group entered event.now) tally.old tally.new }
{
    let mut left = entered;
    while left != 0 {
        let item = left.trailing_zeros();
        left &= !(1 << item);
        tally_block(blocks, group * 64 + item, event, from, least, tally);
    }
}

// Tallies the entered blocks of a group, each of whose patterns has the first `from` data. Those that
// aren't marked as possible have no pattern for the rows that are asked for.
fn tally_entered(
    blocks: &Blocks,
    group: u32,
    entered: u64,
    possible: u64,
    event: &[Datum],
    from: usize,
    least: usize,
    tally: &mut [u32],
)
    requires cats { blocks.now.shown.cats ≤ 8 }
    requires group { group < 2 ^ 18 }
    requires few { length event.now ≤ 64 }
    requires from { from ≤ length event.now }
    requires least { least ≤ length event.now }
    requires possible { HoldsRest blocks.now.shown group event.now least possible }
    requires shown { (s : ℕ) → s < 64 → bit_at entered s ≡ 1 → (u : ℕ) → u < 64 → from ≤ matched blocks.now.shown (group * 64 + s) event.now u }
    requires tally { length tally.old ≡ 520 }
    requires room { HasRoom blocks.now.shown.cats least (open_gain blocks.now.shown blocks.now.counts group entered event.now) tally.old }
    ensures { Adds blocks.now.shown.cats least (open_gain blocks.now.shown blocks.now.counts group entered event.now) tally.old tally.new }
{
    tally_open(blocks, group, entered & possible, event, from, least, tally);
}

// The tally of a group, whose possible blocks are marked.
fn tally_blocks(
    blocks: &Blocks,
    groups: &Groups,
    group: u32,
    possible: u64,
    event: &[Datum],
    least: usize,
    tally: &mut [u32],
)
    requires sums { SumsUp blocks.now.shown blocks.now.counts groups.now.any groups.now.all groups.now.totals group }
    requires cats { blocks.now.shown.cats ≤ 8 }
    requires group { group < 2 ^ 18 }
    requires few { length event.now ≤ 64 }
    requires least { least ≤ length event.now }
    requires possible { HoldsRest blocks.now.shown group event.now least possible }
    requires tally { length tally.old ≡ 520 }
    requires room { HasRoom blocks.now.shown.cats least (group_gain blocks.now.shown blocks.now.counts group event.now) tally.old }
    ensures { Adds blocks.now.shown.cats least (group_gain blocks.now.shown blocks.now.counts group event.now) tally.old tally.new }
{
    let cats = blocks.shown.cats();
    let mut alive = u64::MAX;
    for i in 0..event.len() {
        let datum = &event[i];
        let some = groups.any.word(group, datum);
        let every = groups.all.word(group, datum);
        let lost = alive & !some;
        add_marked(&groups.totals, group, cats, lost, i, least, tally);
        let entered = (alive & some) & !every;
        tally_entered(blocks, group, entered, possible, event, i, least, tally);
        alive &= every;
        if alive == 0 {
            return;
        }
    }
    add_marked(
        &groups.totals,
        group,
        cats,
        alive,
        event.len(),
        least,
        tally,
    );
}

/// Adds the numbers of each pattern of a group to a row of the tally: that of how many of the first
/// data the pattern has. Rows below `least` aren't asked for. Item s of the group is a block: in
/// `any` it has the data that some of its patterns has, and in `all` those that all of them have.
pub fn tally_group(
    blocks: &Blocks,
    groups: &Groups,
    group: u32,
    event: &[Datum],
    least: usize,
    tally: &mut [u32],
)
    requires sums { SumsUp blocks.now.shown blocks.now.counts groups.now.any groups.now.all groups.now.totals group }
    requires cats { blocks.now.shown.cats ≤ 8 }
    requires group { group < 2 ^ 18 }
    requires few { length event.now ≤ 64 }
    requires least { least ≤ length event.now }
    requires tally { length tally.old ≡ 520 }
    requires room { HasRoom blocks.now.shown.cats least (group_gain blocks.now.shown blocks.now.counts group event.now) tally.old }
    ensures { Adds blocks.now.shown.cats least (group_gain blocks.now.shown blocks.now.counts group event.now) tally.old tally.new }
{
    let possible = items_with(&groups.any, group, event, 0, least);
    if possible != 0 {
        tally_blocks(blocks, groups, group, possible, event, least, tally);
    }
}
