// Counting ahead.
ghost use Rattle.std.specs.Prelude.{◌≡◌, ℕ, ◌+◌, ◌<◌, ◌≤◌, Option, length, slice_index_or};
ghost use Rattle.event_retrieve.specs.Gather.{LiesBetween};
ghost use Rattle.event_retrieve.specs.Plan.{nodes_in};
ghost use Rattle.event_retrieve.specs.Sequential.{sequential};
ghost use Rattle.spec_run.specs.Found.{IsCentre, MayBeFound};
ghost use Rattle.spec_run.specs.Told.{IsAround};

use arrayvec::ArrayVec;
use event_retrieve::{Centre, Gather, LevelPlan, Offer, Surroundings};
use mp_base::Cat;
use shared_grid::{Naming, Reader, SharedGrid, Site};

/// What counting a node ahead of its turn gives.
#[derive(Drop)]
pub enum Spec {
    /// Nothing: the node's turn has passed.
    Late { front: u32 },
    /// An offer of what is retained of the event that was seen.
    Made(Offer),
}

// The event of a path node, gathered from the cells while others commit.
pub(crate) fn gather_event<N: Naming, T: Site>(
    plan: &LevelPlan<'_>,
    around: &Surroundings<'_>,
    grid: &SharedGrid<N, T>,
    pass: &mut Reader<N, T>,
    index: u32,
) -> Gather
    requires plan { plan.now ≡ N.plan }
    requires story { N.story ≡ sequential N.plan }
    requires around { IsAround plan.now around.now }
    requires index { index < nodes_in plan.now }
    requires seen { pass.old ≤ index }
    ensures same { pass.new ≡ pass.old }
    ensures index { result.index ≡ index }
    ensures done { result.position ≡ length plan.now.source.template + 1 }
    ensures between { LiesBetween plan.now pass.old result }
{
    let _ = plan.length();
    let centre = around.centre(plan.cell_of(index));
    let values = values_around(plan, &centre, grid, pass, index);
    let mut gather = Gather::new(index);
    for value in values.iter() {
        gather.put(plan, *value);
    }
    gather
}

// What is found at each template position of a path node, in their order. All cells and ranks are
// read before the first value is put, so that no read waits for another or for a branch.
fn values_around<N: Naming, T: Site>(
    plan: &LevelPlan<'_>,
    centre: &Centre<'_>,
    grid: &SharedGrid<N, T>,
    pass: &mut Reader<N, T>,
    index: u32,
) -> ArrayVec<Option<Cat>, 64>
    requires plan { plan.now ≡ N.plan }
    requires story { N.story ≡ sequential N.plan }
    requires centre { IsCentre plan.now index centre.now }
    requires index { index < nodes_in plan.now }
    ensures same { pass.new ≡ pass.old }
    ensures count { length result.items ≡ length plan.now.source.template }
    ensures found { (n : ℕ) (d : Option ℕ) → n < length result.items
        → MayBeFound plan.now pass.old index (n + 1) (slice_index_or result.items n d) }
{
    let mut values = ArrayVec::new();
    for number in 0..plan.template_len() {
        values.push(value_at(plan, centre, grid, pass, index, number));
    }
    values
}

// What is found at the position of a vector by its number, counted from 0. The cell is read also
// where its turn comes later, since its word mostly lies beside one that is wanted, and a branch
// that goes either way costs more than a read.
fn value_at<N: Naming, T: Site>(
    plan: &LevelPlan<'_>,
    centre: &Centre<'_>,
    grid: &SharedGrid<N, T>,
    pass: &mut Reader<N, T>,
    index: u32,
    number: u8,
) -> Option<Cat>
    requires plan { plan.now ≡ N.plan }
    requires story { N.story ≡ sequential N.plan }
    requires centre { IsCentre plan.now index centre.now }
    requires index { index < nodes_in plan.now }
    requires number { number < length plan.now.source.template }
    ensures same { pass.new ≡ pass.old }
    ensures found { MayBeFound plan.now pass.old index (number + 1) result }
{
    let _ = plan.length();
    let cell = centre.cell_at(number as usize)?;
    let value = grid.read(pass, cell);
    if plan.comes_later(cell, index) {
        None
    } else {
        value
    }
}
