// The list.
ghost use Rattle.std.specs.Prelude.{◌≡◌, ◌*◌, ◌<◌, ◌≤◌, ◌^◌, All, IfOk, length, map};
ghost use Rattle.ti_scan.specs.Event.{IsEvent, StandsFor};
ghost use Rattle.pattern_store.specs.Building.{IsBuilt};
ghost use Rattle.pattern_store.specs.Gains.{IsTallied};
ghost use Rattle.pattern_store.specs.Levels.{AreAlike, many};
ghost use Rattle.pattern_store.specs.Prefixes.{distinct_patterns};
ghost use Rattle.pattern_store.specs.Store.{IsStore};
ghost use Rattle.impala_list.specs.List.{list_bits, list_counts, list_reach};
ghost use Rattle.impala_list.specs.Ranking.{AreRanked};

use crate::keys::keys_of;
use crate::many::many_counts;
use crate::ranking::{Ranking, ranked};
use crate::tally::tally_list;
use mp_base::{Counts, NoMemory};
use pattern_blocks::{Blocks, TALLY};
use pattern_store::{PER_GROUP, blocks_of, counts_of, longest_of};
use std::alloc::Global;
use std::marker::Model;
use std::thread::Threads;
use ti_scan::{CountStore, Eroded, Event, LongestPrefix};

/// The list of a training image under a template (Straubhaar et al. 2011): its distinct patterns in
/// the order of their categories, with the counts of each, in blocks and groups of blocks.
#[derive(Drop)]
pub struct EventList {
    blocks: Blocks,
    groups: u32,
    entries: u32,
}

impl Model for EventList {
    ghost use Rattle.impala_list.specs.List.{Listed};
    ghost use Rattle.pattern_store.specs.Store.{IsStore, stored};

    ghost Value = { Listed };

    ghost view = { λ l. record { patterns = stored l.blocks.shown l.blocks.counts l.groups; entries = l.entries } };

    ghost invariant = { λ l. IsStore l.blocks.shown l.blocks.counts l.groups };
}

// The list of all patterns, which have these places.
fn listed(
    eroded: &Eroded<'_>,
    blocks: Blocks,
    groups: u32,
    _keys: &[u64],
    ranking: Ranking,
) -> EventList
    requires count { length _keys.now ≡ many eroded.now }
    requires alike { AreAlike eroded.now (length eroded.now.template) _keys.now }
    requires ranked { AreRanked _keys.now ranking.places.items ranking.classes }
    requires built { IsBuilt eroded.now ranking.places.items groups blocks.shown blocks.counts }
    requires room { ranking.classes < groups * 4096 }
    requires few { groups ≤ 2 ^ 9 }
    ensures stands { StandsFor list_counts list_reach result eroded.now }
    ensures entries { result.entries ≡ distinct_patterns eroded.now }
{
    let _ = eroded.positions();
    EventList {
        blocks,
        groups,
        entries: ranking.classes,
    }
}

impl EventList {
    /// Builds the list, between the processors.
    pub fn build(
        rt: &(impl Threads + Sync),
        alloc: Global,
        eroded: &Eroded<'_>,
    ) -> Result<EventList, NoMemory>
        ensures stands { IfOk result (λ list. StandsFor list_counts list_reach list eroded.now) }
        ensures entries { IfOk result (λ list. list.entries ≡ distinct_patterns eroded.now) }
    {
        let _ = eroded.positions();
        let keys = keys_of(rt, alloc, eroded)?;
        let ranking = ranked(rt, alloc, &keys)?;
        let groups = ranking.classes / PER_GROUP + 1;
        let blocks = blocks_of(alloc, eroded, &ranking.places, ranking.classes, groups)?;
        Ok(listed(eroded, blocks, groups, &keys, ranking))
    }

    /// How many entries there are: one for each distinct pattern that an eroded position shows.
    pub fn entries(&self) -> u32
        ensures { result ≡ self.now.entries }
    {
        self.entries
    }

    /// How many bits say what its patterns show: one for each pattern, position of the template and
    /// category. Nearly all of its memory goes into these. What fills up the last group counts too.
    pub fn bits(&self) -> u64
        ensures { result ≡ list_bits self.now }
    {
        let shown = &self.blocks.shown;
        let patterns = u64::from(self.groups) * u64::from(PER_GROUP);
        patterns * u64::from(shown.reach()) * u64::from(shown.cats())
    }

    /// How many replicates of each event have each category at their centre. The list is split between
    /// the processors.
    pub fn counts_many(
        &self,
        rt: &(impl Threads + Sync),
        alloc: Global,
        events: &[Event],
    ) -> Result<Vec<Counts>, NoMemory>
        requires { All (IsEvent (list_reach self.now)) events.now }
        ensures { IfOk result (λ many. many.items ≡ map (list_counts self.now) events.now) }
    {
        many_counts(rt, alloc, &self.blocks, self.groups, events)
    }
}

impl CountStore for EventList {
    ghost use Rattle.pattern_store.specs.Falling.{patterns-fall};
    ghost use Rattle.impala_list.specs.List.{list_counts, list_reach};

    ghost gives = { λ l event. list_counts l event };

    ghost reaches = { list_reach };

    ghost falls = { λ l event m k le. patterns-fall l.patterns event m k le };

    fn counts(&self, event: &Event) -> Counts {
        let known = event.items();
        let blocks = &self.blocks;
        let groups = self.groups;
        let tally = |least: usize| -> [u32; TALLY]
            requires store { IsStore blocks.now.shown blocks.now.counts groups }
            requires few { length known.now ≤ 64 }
            requires least { least ≤ length known.now }
            ensures { IsTallied blocks.entry.now.shown blocks.entry.now.counts groups known.entry.now least result }
        { tally_list(blocks, groups, known, least) };
        counts_of(blocks, groups, known, tally)
    }

    fn longest_prefix(&self, event: &Event, most: u8, min: u32) -> LongestPrefix {
        let known = &event.items()[..most as usize];
        let blocks = &self.blocks;
        let groups = self.groups;
        let tally = |least: usize| -> [u32; TALLY]
            requires store { IsStore blocks.now.shown blocks.now.counts groups }
            requires few { length known.now ≤ 64 }
            requires least { least ≤ length known.now }
            ensures { IsTallied blocks.entry.now.shown blocks.entry.now.counts groups known.entry.now least result }
        { tally_list(blocks, groups, known, least) };
        longest_of(blocks, groups, known, min, tally)
    }
}
