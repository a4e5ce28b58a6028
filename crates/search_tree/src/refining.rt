// A template position more: places become ranks of longer prefixes.
ghost use Rattle.std.specs.Prelude.{◌*◌, ◌≡◌, ◌<◌, ◌^◌, IfOk, length, replicate};
ghost use Rattle.pattern_store.specs.Slots.{HaveSlots};
ghost use Rattle.search_tree.specs.Ranks.{IsRefined};

use crate::ranks::{mark_slots, rank_places, rank_slots};
use mp_base::NoMemory;
use std::alloc::Global;

// The same over slots that are clear.
fn refine_by(places: &mut [u32], cats: u8, shown: &[u8], slots: &mut [u32]) -> u32
    requires same { length shown.now ≡ length places.old }
    requires have { HaveSlots places.old cats shown.now (length slots.old) }
    requires few { length slots.old < 2 ^ 32 }
    requires clear { slots.old ≡ replicate (length slots.old) 0 }
    ensures { IsRefined places.old cats shown.now result places.new }
{
    mark_slots(places, cats, shown, slots);
    let next = rank_slots(slots);
    rank_places(places, cats, shown, slots);
    next
}

/// Gives each position as its place the rank of its place and the category that is shown next, among
/// those that there are. It answers how many there are.
pub fn refine_places(
    alloc: Global,
    places: &mut [u32],
    cats: u8,
    shown: &[u8],
    classes: u32,
) -> Result<u32, NoMemory>
    requires same { length shown.now ≡ length places.old }
    requires have { HaveSlots places.old cats shown.now (classes * cats) }
    requires few { classes * cats < 2 ^ 32 }
    ensures { IfOk result (λ next. IsRefined places.old cats shown.now next places.new) }
{
    let mut slots = vec![in alloc; 0u32; classes as usize * cats as usize]?;
    Ok(refine_by(places, cats, shown, &mut slots))
}
