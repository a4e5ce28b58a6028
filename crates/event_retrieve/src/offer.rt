// Offers of what is retained, made ahead of a node's turn.
ghost use Rattle.std.specs.Prelude.{◌≡◌, ◌<◌, ◌&&◌, nat_le, not, None, IfSome, length};
ghost use Rattle.mp_base.specs.Grid.{cells_of};
ghost use Rattle.event_retrieve.specs.Offer.{IsSound, IsRetained, IsFirstMissed, stale_by, missed_at, has_position, event_of_turn};

use crate::known::position_of_cell;
use crate::plan::LevelPlan;
use crate::retrieval::Retained;
use mp_base::CellId;
use ti_scan::Event;

/// What is retained of a path node's event, gathered before the node's turn, when at least the
/// first `seen` entries of the log were there.
#[derive(Drop)]
pub struct Offer {
    /// The node's index on the path.
    pub index: u32,
    /// How many entries were there, at least, when the event was gathered.
    pub seen: u32,
    pub event: Event,
    pub retained: Retained,
}

/// An entry that an offer's event misses, and the template position at which it lies.
#[derive(Clone, Copy, Debug, PartialEq, Eq)]
pub struct Missed {
    /// The entry's index in the log.
    pub entry: u32,
    pub position: u8,
}

impl Offer {
    /// What makes the offer stale, if anything does: the first entry that came since the entries
    /// that were seen and lies at a template position, up to the reach, at which the event has no
    /// datum. Where there is none, the offer has what is retained of the event of the node's turn.
    pub fn stale_by(&self, plan: &LevelPlan<'_>) -> Option<Missed>
        requires sound { IsSound plan.now self.now }
        ensures missed { result ≡ stale_by plan.now self.now }
        ensures first { IfSome result (λ m. IsFirstMissed plan.now self.now m) }
        ensures fresh { result ≡ None → IsRetained plan.now (event_of_turn plan.now self.now.index) self.now.retained }
    {
        let _ = plan.length();
        for entry in self.seen..self.index {
            if let Some(position) = self.missed_at(plan, plan.cell_of(entry)) {
                return Some(Missed { entry, position });
            }
        }
        None
    }

    // The template position, up to the reach, at which a cell lies and the event has no datum. A
    // cell lies at one position at most, that of the vector to it.
    fn missed_at(&self, plan: &LevelPlan<'_>, cell: CellId) -> Option<u8>
        requires index { self.now.index < length plan.now.path }
        requires cell { cell < cells_of plan.now.start.sides }
        ensures { result ≡ missed_at plan.now self.now cell }
    {
        let position = position_of_cell(plan, self.index, cell)?;
        if self.lacks(position) {
            Some(position)
        } else {
            None
        }
    }

    // Whether a position is within the reach, and the event has no datum there.
    fn lacks(&self, position: u8) -> bool
        ensures { result ≡ (nat_le position self.now.retained.reach && not (has_position self.now.event position)) }
    {
        position <= self.retained.reach && !self.has_position(position)
    }

    // Whether the event has a datum at a position.
    fn has_position(&self, position: u8) -> bool
        ensures { result ≡ has_position self.now.event position }
    {
        self.event
            .items()
            .iter()
            .any(|datum| datum.position == position)
    }
}
