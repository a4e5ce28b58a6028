// A position for each rank.
ghost use Rattle.std.specs.Prelude.{◌≡◌, ℕ, ◌<◌, ◌^◌, IfOk, length, replicate, slice_index};
ghost use Rattle.ti_scan.specs.Eroded.{positions_of};
ghost use Rattle.pattern_store.specs.Building.{ArePicked, ArePicks};

use mp_base::{CellId, NoMemory};
use std::alloc::Global;
use ti_scan::Eroded;

// How many picks there are: one for each rank, and none where no position is.
fn count_of_picks(positions: usize, ranks: u32) -> usize
    ensures some { 0 < result → 0 < positions }
    ensures all { 0 < positions → result ≡ ranks }
{
    if positions > 0 { ranks as usize } else { 0 }
}

// Picks for each rank the last position that has it.
fn pick(places: &[u32], picks: &mut [u32])
    requires some { 0 < length picks.old → 0 < length places.now }
    requires few { length places.now < 2 ^ 32 }
    requires below { (i : ℕ) → i < length places.now → slice_index places.now i < length picks.old }
    requires clear { picks.old ≡ replicate (length picks.old) 0 }
    ensures { ArePicks places.now picks.new }
{
    for i in 0..places.len() {
        picks[places[i] as usize] = i as u32;
    }
}

/// For each rank the index of a position that has it.
pub fn picks_of(alloc: Global, places: &[u32], ranks: u32) -> Result<Vec<u32>, NoMemory>
    requires few { length places.now < 2 ^ 32 }
    requires below { (i : ℕ) → i < length places.now → slice_index places.now i < ranks }
    ensures { IfOk result (λ picks. ArePicks places.now picks.items) }
{
    let count = count_of_picks(places.len(), ranks);
    let mut picks = vec![in alloc; 0u32; count]?;
    pick(places, &mut picks);
    Ok(picks)
}

/// The places of the picked positions.
pub fn picked_places(alloc: Global, places: &[u32], picks: &[u32]) -> Result<Vec<u32>, NoMemory>
    requires { (r : ℕ) → r < length picks.now → slice_index picks.now r < length places.now }
    ensures { IfOk result (λ own. ArePicked places.now picks.now own.items) }
{
    let mut own = Vec::with_capacity(alloc, picks.len())?;
    for pick in picks {
        own.push(places[*pick as usize])?;
    }
    Ok(own)
}

/// The cells of the picked positions.
pub fn picked_cells(
    alloc: Global,
    eroded: &Eroded<'_>,
    picks: &[u32],
) -> Result<Vec<CellId>, NoMemory>
    requires { (r : ℕ) → r < length picks.now → slice_index picks.now r < length (positions_of eroded.now.image eroded.now.template) }
    ensures { IfOk result (λ cells. ArePicked (positions_of eroded.now.image eroded.now.template) picks.now cells.items) }
{
    let positions = eroded.positions();
    let mut cells = Vec::with_capacity(alloc, picks.len())?;
    for pick in picks {
        cells.push(positions[*pick as usize])?;
    }
    Ok(cells)
}
