// The search tree.
ghost use Rattle.std.specs.Prelude.{◌≡◌, ◌*◌, ◌<◌, ◌≤◌, ◌^◌, IfOk, length};
ghost use Rattle.ti_scan.specs.Event.{StandsFor};
ghost use Rattle.pattern_store.specs.Building.{IsBuilt};
ghost use Rattle.pattern_store.specs.Gains.{IsTallied};
ghost use Rattle.search_tree.specs.Groups.{AreSummed, IsTree};
ghost use Rattle.search_tree.specs.Ranks.{IsRanked};
ghost use Rattle.search_tree.specs.Tree.{tree_bits, tree_counts, tree_reach};
ghost use Rattle.search_tree.specs.Nodes.{all_prefixes};

use crate::forest::tally_groups;
use crate::group::Groups;
use crate::placing::{Ranks, ranks_of};
use crate::summing::groups_of;
use mp_base::{Counts, NoMemory};
use pattern_blocks::{Blocks, TALLY};
use pattern_store::{PER_GROUP, blocks_of, counts_of, longest_of};
use std::alloc::Global;
use std::marker::Model;
use ti_scan::{CountStore, Eroded, Event, LongestPrefix};

/// The search tree of a training image under a template (Strebelle 2002), as the patterns at the
/// ends of its branches: they stand in the order of the branches, in blocks and groups of blocks.
#[derive(Drop)]
pub struct SearchTree {
    blocks: Blocks,
    groups: Groups,
    nodes: u32,
}

impl Model for SearchTree {
    ghost use Rattle.pattern_store.specs.Store.{stored};
    ghost use Rattle.search_tree.specs.Groups.{IsTree};
    ghost use Rattle.search_tree.specs.Tree.{Tree};

    ghost Value = { Tree };

    ghost view = { λ t. record { patterns = stored t.blocks.shown t.blocks.counts t.groups.count; nodes = t.nodes } };

    ghost invariant = { λ t. IsTree t.blocks.shown t.blocks.counts t.groups.any t.groups.all t.groups.totals t.groups.count };
}

// The tree of all patterns.
fn whole(eroded: &Eroded<'_>, blocks: Blocks, groups: Groups, ranks: Ranks) -> SearchTree
    requires ranked { IsRanked eroded.now (length eroded.now.template) ranks.places.items ranks.classes ranks.nodes }
    requires built { IsBuilt eroded.now ranks.places.items groups.count blocks.shown blocks.counts }
    requires room { ranks.classes < groups.count * 4096 }
    requires few { groups.count ≤ 2 ^ 9 }
    requires sums { AreSummed blocks.shown blocks.counts groups.any groups.all groups.totals groups.count }
    ensures stands { StandsFor tree_counts tree_reach result eroded.now }
    ensures nodes { result.nodes ≡ all_prefixes eroded.now }
{
    let _ = eroded.positions();
    SearchTree {
        blocks,
        groups,
        nodes: ranks.nodes,
    }
}

impl SearchTree {
    /// Builds the tree.
    pub fn build(alloc: Global, eroded: &Eroded<'_>) -> Result<SearchTree, NoMemory>
        ensures stands { IfOk result (λ tree. StandsFor tree_counts tree_reach tree eroded.now) }
        ensures nodes { IfOk result (λ tree. tree.nodes ≡ all_prefixes eroded.now) }
    {
        let _ = eroded.positions();
        let ranks = ranks_of(alloc, eroded)?;
        let count = ranks.classes / PER_GROUP + 1;
        let blocks = blocks_of(alloc, eroded, &ranks.places, ranks.classes, count)?;
        let groups = groups_of(alloc, &blocks, count)?;
        Ok(whole(eroded, blocks, groups, ranks))
    }

    /// How many nodes there are: one for each distinct list of categories that some eroded
    /// position shows at the first positions of the template, over all lengths. The root counts
    /// even without positions.
    pub fn nodes(&self) -> u32
        ensures { result ≡ self.now.nodes }
    {
        self.nodes
    }

    /// How many bits say what its patterns show: one for each pattern, position of the template and
    /// category. Nearly all of its memory goes into these. What fills up the last group counts too.
    pub fn bits(&self) -> u64
        ensures { result ≡ tree_bits self.now }
    {
        let shown = &self.blocks.shown;
        let patterns = u64::from(self.groups.count) * u64::from(PER_GROUP);
        patterns * u64::from(shown.reach()) * u64::from(shown.cats())
    }
}

impl CountStore for SearchTree {
    ghost use Rattle.pattern_store.specs.Falling.{patterns-fall};
    ghost use Rattle.search_tree.specs.Tree.{tree_counts, tree_reach};

    ghost gives = { λ t event. tree_counts t event };

    ghost reaches = { tree_reach };

    ghost falls = { λ t event m k le. patterns-fall t.patterns event m k le };

    fn counts(&self, event: &Event) -> Counts {
        let known = event.items();
        let blocks = &self.blocks;
        let groups = &self.groups;
        let tally = |least: usize| -> [u32; TALLY]
            requires tree { IsTree blocks.now.shown blocks.now.counts groups.now.any groups.now.all groups.now.totals groups.now.count }
            requires few { length known.now ≤ 64 }
            requires least { least ≤ length known.now }
            ensures { IsTallied blocks.entry.now.shown blocks.entry.now.counts groups.entry.now.count known.entry.now least result }
        { tally_groups(blocks, groups, known, least) };
        counts_of(blocks, groups.count, known, tally)
    }

    fn longest_prefix(&self, event: &Event, most: u8, min: u32) -> LongestPrefix {
        let known = &event.items()[..most as usize];
        let blocks = &self.blocks;
        let groups = &self.groups;
        let tally = |least: usize| -> [u32; TALLY]
            requires tree { IsTree blocks.now.shown blocks.now.counts groups.now.any groups.now.all groups.now.totals groups.now.count }
            requires few { length known.now ≤ 64 }
            requires least { least ≤ length known.now }
            ensures { IsTallied blocks.entry.now.shown blocks.entry.now.counts groups.entry.now.count known.entry.now least result }
        { tally_groups(blocks, groups, known, least) };
        longest_of(blocks, groups.count, known, min, tally)
    }
}
