// Blocks of the patterns of an image.
ghost use Rattle.std.specs.Prelude.{◌≡◌, ℕ, ◌*◌, ◌<◌, ◌≤◌, ◌^◌, IfOk, length, slice_index};
ghost use Rattle.ti_scan.specs.Eroded.{positions_of};
ghost use Rattle.pattern_store.specs.Building.{IsBuilt};
ghost use Rattle.pattern_store.specs.Levels.{AreAlike};

use crate::counting::slots_counted;
use crate::drawing::drawn;
use crate::filling::read_centres;
use mp_base::NoMemory;
use pattern_blocks::{Blocks, Planes, Rows};
use std::alloc::Global;
use ti_scan::Eroded;

/// How many patterns a group has: 64 blocks of 64.
pub const PER_GROUP: u32 = 4096;

/// The blocks of so many groups, of patterns with these places: each place is that of one distinct
/// pattern, among so many classes.
pub fn blocks_of(
    alloc: Global,
    eroded: &Eroded<'_>,
    places: &[u32],
    classes: u32,
    groups: u32,
) -> Result<Blocks, NoMemory>
    requires places { length places.now ≡ length (positions_of eroded.now.image eroded.now.template) }
    requires below { (i : ℕ) → i < length places.now → slice_index places.now i < classes }
    requires alike { AreAlike eroded.now (length eroded.now.template) places.now }
    requires room { classes < groups * 4096 }
    requires groups { groups ≤ 2 ^ 9 }
    ensures { IfOk result (λ blocks. IsBuilt eroded.now places.now groups blocks.shown blocks.counts) }
{
    let count = eroded.positions().len();
    let cats = eroded.cats();
    let words = drawn(alloc, eroded, places, classes, groups)?;
    let mut centres = vec![in alloc; 0u8; count]?;
    read_centres(eroded, &mut centres);
    let slots = classes as usize * cats as usize;
    let numbers = slots_counted(alloc, places, cats, &centres, slots)?;
    let counts = Planes::of(alloc, &numbers, cats, groups * 64 * cats as u32)?;
    Ok(Blocks {
        shown: Rows::of(eroded.template().len(), cats, words),
        counts,
    })
}
