// The bits of all patterns.
ghost use Rattle.std.specs.Prelude.{◌≡◌, ℕ, ◌*◌, ◌<◌, ◌≤◌, ◌^◌, IfOk, length, slice_index};
ghost use Rattle.ti_scan.specs.Eroded.{positions_of};
ghost use Rattle.pattern_store.specs.Building.{AreDrawnAround, HasBlock, IsDrawn};
ghost use Rattle.pattern_store.specs.Levels.{AreAlike, AreEroded};

use crate::filling::read_around;
use crate::picking::{picked_cells, picked_places, picks_of};
use mp_base::{CellId, NoMemory};
use pattern_blocks::mark_shown;
use std::alloc::Global;
use ti_scan::Eroded;

// Marks each pattern at its place, in words that are clear. It is shown around its cell.
fn draw(eroded: &Eroded<'_>, cells: &[CellId], places: &[u32], shown: &mut [u8], words: &mut [u64])
    requires cells { AreEroded eroded.now cells.now }
    requires places { length places.now ≡ length cells.now }
    requires same { length shown.old ≡ length cells.now }
    requires room { (i : ℕ) → i < length places.now → HasBlock (length eroded.now.template * eroded.now.cats) (slice_index places.now i) words.old }
    requires clear { (j : ℕ) → slice_index words.old j ≡ 0 }
    ensures count { length words.new ≡ length words.old }
    ensures drawn { AreDrawnAround eroded.now cells.now places.now (length eroded.now.template) words.new }
{
    let _ = eroded.positions();
    let cats = eroded.cats();
    let reach = eroded.template().len();
    for position in 0..reach {
        read_around(eroded, cells, position + 1, shown);
        mark_shown(places, shown, reach, cats, position, words);
    }
}

/// For each block of ranks, template position and category, a word of bits: whether a rank shows
/// the category there.
pub fn drawn(
    alloc: Global,
    eroded: &Eroded<'_>,
    places: &[u32],
    ranks: u32,
    groups: u32,
) -> Result<Vec<u64>, NoMemory>
    requires places { length places.now ≡ length (positions_of eroded.now.image eroded.now.template) }
    requires below { (i : ℕ) → i < length places.now → slice_index places.now i < ranks }
    requires room { ranks < groups * 4096 }
    requires alike { AreAlike eroded.now (length eroded.now.template) places.now }
    requires groups { groups ≤ 2 ^ 9 }
    ensures { IfOk result (λ words. IsDrawn eroded.now (slice_index places.now) (length eroded.now.template) words.items) }
{
    let _ = eroded.positions();
    let width = eroded.template().len() as usize * eroded.cats() as usize;
    let picks = picks_of(alloc, places, ranks)?;
    let own = picked_places(alloc, places, &picks)?;
    let cells = picked_cells(alloc, eroded, &picks)?;
    let mut shown = vec![in alloc; 0u8; cells.len()]?;
    let mut words = vec![in alloc; 0u64; groups as usize * 64 * width]?;
    draw(eroded, &cells, &own, &mut shown, &mut words);
    Ok(words)
}
