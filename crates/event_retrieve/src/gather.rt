// Gathering the event of a path node.
ghost use Rattle.std.specs.Prelude.{◌≡◌, ℕ, ◌+◌, ◌-◌, ◌<◌, ◌≤◌, [], length, true};
ghost use Rattle.mp_base.specs.Grid.{cells_of};
ghost use Rattle.ti_scan.specs.Event.{IsEvent, StandsFor};
ghost use Rattle.event_retrieve.specs.Plan.{Plan, cell_at_position as cell_there};
ghost use Rattle.event_retrieve.specs.declared.gather.Wanted.TheVariants.{Done};
ghost use Rattle.event_retrieve.specs.Offer.{IsRetained, IsSound};
ghost use Rattle.event_retrieve.specs.Gather.{wanted_of, MayPut, IfCell, LiesBetween, MayBeRead, after_put, is_early as early};

use crate::known::{cell_at_position, push_found};
use crate::offer::Offer;
use crate::plan::LevelPlan;
use crate::retrieval::retain;
use mp_base::{Cat, CellId};
use std::marker::Model;
use ti_scan::{CountStore, Event};

/// What is wanted next.
#[derive(Clone, Copy, Debug, PartialEq, Eq)]
pub enum Wanted {
    /// Nothing: all positions of the template are done.
    Done,
    /// No value: the position is outside the grid.
    Outside { position: u8 },
    /// No value: the cell is unknown at the start, and its turn doesn't come before the node's.
    Later { position: u8 },
    /// The category of the cell, if it has one by now.
    Cell { position: u8, cell: CellId },
}

/// The event of a path node, gathered at one template position after another, from the first on.
#[derive(Drop)]
pub struct Gather {
    index: u32,
    position: u8,
    event: Event,
}

impl Model for Gather {
    ghost use Rattle.std.specs.Prelude.{◌-◌, ◌≤◌};
    ghost use Rattle.ti_scan.specs.Rising.{RisesFrom};
    ghost use Rattle.event_retrieve.specs.Gather.{Gathering};

    ghost Value = { Gathering };

    ghost view = { λ g. record { index = g.index; position = g.position; event = g.event } };

    ghost invariant = { λ g. (1 ≤ g.position) × (g.position ≤ 65) × RisesFrom 1 (g.position - 1) g.event };
}

impl Gather {
    /// No data yet.
    pub fn new(index: u32) -> Gather
        ensures empty { result ≡ record { index = index; position = 1; event = [] } }
        ensures between { (p : Plan) (seen : ℕ) → LiesBetween p seen result }
    {
        Gather {
            index,
            position: 1,
            event: Event::empty(),
        }
    }

    /// What is wanted at the next position.
    pub fn wanted(&self, plan: &LevelPlan<'_>) -> Wanted
        requires index { self.now.index < length plan.now.path }
        ensures wanted { result ≡ wanted_of plan.now self.now }
        ensures inside { IfCell result (λ c. c < cells_of plan.now.start.sides) }
        ensures early { IfCell result (λ c. early plan.now self.now.index c ≡ true) }
        ensures past { result ≡ Done → length plan.now.source.template < self.now.position }
    {
        let position = self.position;
        let cell = if position > plan.template_len() {
            None
        } else {
            cell_at_position(plan, self.index, position)
        };
        self.wanted_at(plan, cell)
    }

    // What is wanted at the next position, by the cell there.
    fn wanted_at(&self, plan: &LevelPlan<'_>, cell: Option<CellId>) -> Wanted
        requires index { self.now.index < length plan.now.path }
        requires cell { cell ≡ cell_there plan.now self.now.index self.now.position }
        ensures wanted { result ≡ wanted_of plan.now self.now }
        ensures inside { IfCell result (λ c. c < cells_of plan.now.start.sides) }
        ensures early { IfCell result (λ c. early plan.now self.now.index c ≡ true) }
        ensures past { result ≡ Done → length plan.now.source.template < self.now.position }
    {
        let position = self.position;
        if position > plan.template_len() {
            return Wanted::Done;
        }
        match cell {
            None => Wanted::Outside { position },
            Some(cell) if is_early(plan, self.index, cell) => Wanted::Cell { position, cell },
            Some(_) => Wanted::Later { position },
        }
    }

    /// Takes the value that is wanted at the next position, if there is one, and goes on to the
    /// position after it. Values may be read one after another while entries are committed: what
    /// is gathered lies between the known event after the entries that were seen and that of the
    /// node's turn, although it may be the known event after no number of entries.
    pub fn put(&mut self, plan: &LevelPlan<'_>, value: Option<Cat>)
        requires index { self.old.index < length plan.now.path }
        requires wanted { MayPut (wanted_of plan.now self.old) value }
        ensures put { self.new ≡ after_put self.old value }
        ensures between { (seen : ℕ) → seen ≤ self.old.index → LiesBetween plan.now seen self.old
            → IfCell (wanted_of plan.now self.old) (λ c. MayBeRead plan.now seen self.old.index c value)
            → LiesBetween plan.now seen self.new }
    {
        prove!(self.position <= plan.template_len());
        push_found(&mut self.event, self.position as usize - 1, value);
        self.position += 1;
    }

    /// The offer of what is retained of the event, once all positions were put. It is sound where
    /// the event lies between.
    pub fn into_offer<S: CountStore>(self, plan: &LevelPlan<'_>, seen: u32, store: &S) -> Offer
        requires store { StandsFor S.gives S.reaches store.now plan.now.source }
        requires index { self.index < length plan.now.path }
        requires seen { seen ≤ self.index }
        requires done { self.position ≡ length plan.now.source.template + 1 }
        ensures node { (result.index ≡ self.index) × (result.seen ≡ seen) }
        ensures event { result.event ≡ self.event }
        ensures retained { IsRetained plan.now self.event result.retained }
        ensures sound { LiesBetween plan.now seen self → IsSound plan.now result }
    {
        let retained = retain(plan, &self.event, store);
        Offer {
            index: self.index,
            seen,
            event: self.event,
            retained,
        }
    }

    /// The data so far, at positions before the next one.
    pub fn event(&self) -> &Event
        ensures event { result.now ≡ self.now.event }
        ensures before { IsEvent (self.now.position - 1) self.now.event }
    {
        &self.event
    }
}

// Whether a cell is known at the start or its turn comes before the node's. A cell that has a turn
// is unknown at the start.
fn is_early(plan: &LevelPlan<'_>, index: u32, cell: CellId) -> bool
    requires cell { cell < cells_of plan.now.start.sides }
    ensures { result ≡ early plan.now index cell }
{
    let start = plan.start();
    match plan.rank_of(cell) {
        Some(rank) => rank < index,
        None => start.get(cell).is_some(),
    }
}
