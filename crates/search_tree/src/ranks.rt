// Ranks: numbers for the slots that have a position, in the order of the slots.
ghost use Rattle.std.specs.Prelude.{◌≡◌, ℕ, ◌+◌, ◌<◌, ◌^◌, cond, length, slice_index};
ghost use Rattle.pattern_store.specs.Slots.{HaveSlots, place_slot};
ghost use Rattle.search_tree.specs.Ranks.{AreMarked, AreRanks, used_before};

use pattern_store::slot;

// A test as a number to add.
fn one_if(passes: bool) -> u32
    ensures { result ≡ cond passes 1 0 }
{
    if passes { 1 } else { 0 }
}

/// Gives each slot that is used its rank among those, from 0 on, in place of its number of uses. It
/// answers how many there are.
pub fn rank_slots(slots: &mut [u32]) -> u32
    requires { length slots.old < 2 ^ 32 }
    ensures count { length slots.new ≡ length slots.old }
    ensures ranks { AreRanks slots.old slots.new }
    ensures many { result ≡ used_before slots.old (length slots.old) }
{
    let mut next = 0;
    for j in 0..slots.len() {
        let used = one_if(slots[j] != 0);
        slots[j] = next;
        next += used;
    }
    next
}

/// Marks the slots that have a position.
pub fn mark_slots(places: &[u32], cats: u8, shown: &[u8], slots: &mut [u32])
    requires same { length shown.now ≡ length places.now }
    requires have { HaveSlots places.now cats shown.now (length slots.old) }
    requires clear { (j : ℕ) → slice_index slots.old j ≡ 0 }
    ensures count { length slots.new ≡ length slots.old }
    ensures marked { AreMarked places.now cats shown.now (length places.now) slots.new }
{
    for i in 0..places.len() {
        let at = slot(places[i], cats, shown[i]);
        slots[at] = 1;
    }
}

/// Gives each position the rank of its slot as its place.
pub fn rank_places(places: &mut [u32], cats: u8, shown: &[u8], ranks: &[u32])
    requires same { length shown.now ≡ length places.old }
    requires have { HaveSlots places.old cats shown.now (length ranks.now) }
    ensures count { length places.new ≡ length places.old }
    ensures ranked { (i : ℕ) → i < length places.old → slice_index places.new i ≡ slice_index ranks.now (place_slot places.old cats shown.now i) }
{
    for i in 0..places.len() {
        let at = slot(places[i], cats, shown[i]);
        places[i] = ranks[at];
    }
}
