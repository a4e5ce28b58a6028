// Groups of blocks, from the blocks.
ghost use Rattle.std.specs.Prelude.{◌≡◌, ℕ, ◌-◌, ◌*◌, ◌^◌, ◌<◌, ◌≤◌, IfOk};
ghost use Rattle.pattern_blocks.specs.Planes.{marked_sum, planes_of};
ghost use Rattle.search_tree.specs.Groups.{SumsUp};

use crate::group::Groups;
use mp_base::NoMemory;
use pattern_blocks::{Blocks, Planes, Rows, every_rows, some_rows};
use std::alloc::Global;

/// So many groups of blocks.
pub fn groups_of(alloc: Global, blocks: &Blocks, count: u32) -> Result<Groups, NoMemory>
    requires cats_some { 1 ≤ blocks.now.shown.cats }
    requires cats_few { blocks.now.shown.cats ≤ 8 }
    requires reach { blocks.now.shown.reach ≤ 64 }
    requires count { count ≤ 2 ^ 9 }
    requires sums { (r : ℕ) → r < count * 64 * blocks.now.shown.cats → marked_sum (planes_of blocks.now.counts r) (2 ^ 64 - 1) < 2 ^ 32 }
    ensures count { IfOk result (λ groups. groups.count ≡ count) }
    ensures sums { IfOk result (λ groups. (g : ℕ) → g < count → SumsUp blocks.now.shown blocks.now.counts groups.any groups.all groups.totals g) }
{
    let cats = blocks.shown.cats();
    let reach = blocks.shown.reach();
    let width = reach as u32 * cats as u32;
    let step = width.max(1);
    let some = some_rows(alloc, blocks.shown.words(), step, count * width)?;
    let every = every_rows(alloc, blocks.shown.words(), step, count * width)?;
    let sums = blocks.counts.sums(alloc, count * 64 * cats as u32)?;
    let totals = Planes::of(alloc, &sums, cats, count * cats as u32)?;
    Ok(Groups {
        any: Rows::of(reach, cats, some),
        all: Rows::of(reach, cats, every),
        totals,
        count,
    })
}
