// The ranks of positions among the distinct patterns.
ghost use Rattle.std.specs.Prelude.{◌+◌, ◌<◌, IfOk, OnOk, length};
ghost use Rattle.ti_scan.specs.Eroded.{positions_of};
ghost use Rattle.pattern_store.specs.Levels.{AreShown};
ghost use Rattle.search_tree.specs.Ranks.{IsRanked};

use crate::refining::refine_places;
use mp_base::NoMemory;
use pattern_store::read_shown;
use std::alloc::Global;
use ti_scan::Eroded;

/// The rank of each eroded position's pattern, how many patterns there are, and how many distinct
/// beginnings they have.
#[derive(Drop)]
pub struct Ranks {
    pub places: Vec<u32>,
    pub classes: u32,
    pub nodes: u32,
}

// The ranks of prefixes that are longer by what is shown next.
fn deepen(
    alloc: Global,
    eroded: &Eroded<'_>,
    ranks: &mut Ranks,
    _depth: u8,
    shown: &[u8],
) -> Result<(), NoMemory>
    requires ranked { IsRanked eroded.now _depth ranks.old.places.items ranks.old.classes ranks.old.nodes }
    requires depth { _depth < length eroded.now.template }
    requires shown { AreShown eroded.now (_depth + 1) (positions_of eroded.now.image eroded.now.template) shown.now }
    ensures { OnOk result (IsRanked eroded.now (_depth + 1) ranks.new.places.items ranks.new.classes ranks.new.nodes) }
{
    let _ = eroded.positions();
    let cats = eroded.cats();
    let classes = ranks.classes;
    let next = refine_places(alloc, &mut ranks.places, cats, shown, classes)?;
    ranks.classes = next;
    ranks.nodes += next;
    Ok(())
}

/// Ranks the patterns of all eroded positions.
pub fn ranks_of(alloc: Global, eroded: &Eroded<'_>) -> Result<Ranks, NoMemory>
    ensures { IfOk result (λ ranks. IsRanked eroded.now (length eroded.now.template) ranks.places.items ranks.classes ranks.nodes) }
{
    let count = eroded.positions().len();
    let reach = eroded.template().len();
    let mut shown = vec![in alloc; 0u8; count]?;
    let mut ranks = Ranks {
        places: vec![in alloc; 0u32; count]?,
        classes: 1,
        nodes: 1,
    };
    for depth in 0..reach {
        read_shown(eroded, depth + 1, &mut shown);
        deepen(alloc, eroded, &mut ranks, depth, &shown)?;
    }
    Ok(ranks)
}
