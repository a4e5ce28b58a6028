// How many positions have a slot.
ghost use Rattle.std.specs.Prelude.{◌≡◌, ℕ, ◌+◌, ◌<◌, ◌^◌, IfOk, length, replicate, slice_index};
ghost use Rattle.pattern_store.specs.Building.{in_slot};
ghost use Rattle.pattern_store.specs.Slots.{HaveSlots};

use crate::slots::slot;
use mp_base::NoMemory;
use std::alloc::Global;

// Counts for each slot the positions that have it.
fn count_slots(places: &[u32], cats: u8, shown: &[u8], rows: &mut [u32])
    requires same { length shown.now ≡ length places.now }
    requires few { length places.now < 2 ^ 32 }
    requires slots { HaveSlots places.now cats shown.now (length rows.old) }
    requires zero { rows.old ≡ replicate (length rows.old) 0 }
    ensures count { length rows.new ≡ length rows.old }
    ensures each { (j : ℕ) → j < length rows.old → slice_index rows.new j ≡ in_slot places.now cats shown.now (length places.now) j }
{
    for i in 0..places.len() {
        let at = slot(places[i], cats, shown[i]);
        rows[at] += 1;
    }
}

/// How many positions have each of so many slots.
pub fn slots_counted(
    alloc: Global,
    places: &[u32],
    cats: u8,
    shown: &[u8],
    slots: usize,
) -> Result<Vec<u32>, NoMemory>
    requires same { length shown.now ≡ length places.now }
    requires few { length places.now < 2 ^ 32 }
    requires slots { HaveSlots places.now cats shown.now slots }
    ensures count { IfOk result (λ rows. length rows.items ≡ slots) }
    ensures each { IfOk result (λ rows. (j : ℕ) → j < slots → slice_index rows.items j ≡ in_slot places.now cats shown.now (length places.now) j) }
{
    let mut rows = vec![in alloc; 0u32; slots]?;
    count_slots(places, cats, shown, &mut rows);
    Ok(rows)
}
