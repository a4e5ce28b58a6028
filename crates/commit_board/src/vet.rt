// Offers from strangers.
ghost use Rattle.std.specs.Prelude.{◌≡◌, ◌↔◌, ◌<◌, ◌≤◌, IfErr, IsOk, OnOk, length};
ghost use Rattle.std.specs.Result.{result_err};
ghost use Rattle.ti_scan.specs.Event.{IsEvent, StandsFor};
ghost use Rattle.event_retrieve.specs.Offer.{IsSound};
ghost use Rattle.event_retrieve.specs.Plan.{nodes_in};
ghost use Rattle.event_retrieve.specs.Sequential.{log_of};
ghost use Rattle.commit_board.specs.Board.{Fits, front};
ghost use Rattle.commit_board.specs.Vet.{IsFaultOf, event_fault, first_outside, has_datum, is_same_retained, offer_fault, retained_fault};

use crate::board::Board;
use event_retrieve::{LevelPlan, Offer, Retained, known_event, retain};
use mp_base::Entry;
use ti_scan::{CountStore, Datum};

/// What is wrong with an offer.
#[derive(Drop)]
pub enum OfferFault {
    /// It isn't of the front's node, or no node is left.
    Index { index: u32, front: u32 },
    /// More entries were seen than come before its node.
    Seen { seen: u32, index: u32 },
    /// Its event lacks the datum at this position, which the entries that were seen give.
    Missing { position: u8 },
    /// Its event has a datum at this position that isn't known at its node's turn.
    Extra { position: u8 },
    /// What it retains isn't what is retained of its event, which is this.
    Retained(Retained),
}

impl Board {
    /// Whether an offer, whoever made it, is of the front and sound; else the first of the faults
    /// that it has, in their order. It takes no memory.
    pub fn vet<S: CountStore>(
        &self,
        plan: &LevelPlan<'_>,
        store: &S,
        offer: &Offer,
    ) -> Result<(), OfferFault>
        requires fits { Fits plan.now self.now }
        requires store { StandsFor S.gives S.reaches store.now plan.now.source }
        ensures fault { result_err result ≡ offer_fault plan.now (front self.now) offer.now }
        ensures means { IfErr result (IsFaultOf plan.now offer.now) }
        ensures sound { IsOk result ↔ ((offer.now.index ≡ front self.now) × IsSound plan.now offer.now) }
    {
        let front = self.log().len() as u32;
        let index = offer.index;
        if index != front || front == self.length() {
            return Err(OfferFault::Index { index, front });
        }
        let seen = offer.seen;
        if seen > index {
            return Err(OfferFault::Seen { seen, index });
        }
        vet_event(plan, self.log(), offer)?;
        vet_retained(plan, store, offer)
    }
}

// The first fault of an offer's event, by the entries before its node.
fn vet_event(plan: &LevelPlan<'_>, log: &[Entry], offer: &Offer) -> Result<(), OfferFault>
    requires log { log.now ≡ log_of plan.now offer.now.index }
    requires index { offer.now.index < nodes_in plan.now }
    requires seen { offer.now.seen ≤ offer.now.index }
    ensures fault { result_err result ≡ event_fault plan.now offer.now }
    ensures means { IfErr result (IsFaultOf plan.now offer.now) }
    ensures rises { OnOk result (IsEvent (length plan.now.source.template) offer.now.event) }
{
    let before = known_event(plan, offer.index, &log[..offer.seen as usize]);
    if let Some(position) = first_outside(before.items(), offer.event.items()) {
        return Err(OfferFault::Missing { position });
    }
    let turn = known_event(plan, offer.index, log);
    match first_outside(offer.event.items(), turn.items()) {
        Some(position) => Err(OfferFault::Extra { position }),
        None => Ok(()),
    }
}

// The position of the first datum of an event that another doesn't have.
fn first_outside(event: &[Datum], other: &[Datum]) -> Option<u8>
    ensures { result ≡ first_outside event.now other.now }
{
    event
        .iter()
        .find(|datum| !has_datum(other, datum))
        .map(|datum| datum.position)
}

// Whether an event has a datum.
fn has_datum(event: &[Datum], datum: &Datum) -> bool
    ensures { result ≡ has_datum event.now datum.now }
{
    event.contains(datum)
}

// Whether an offer retains what is retained of its event.
fn vet_retained<S: CountStore>(
    plan: &LevelPlan<'_>,
    store: &S,
    offer: &Offer,
) -> Result<(), OfferFault>
    requires store { StandsFor S.gives S.reaches store.now plan.now.source }
    requires event { IsEvent (length plan.now.source.template) offer.now.event }
    ensures fault { result_err result ≡ retained_fault plan.now offer.now }
{
    let right = retain(plan, &offer.event, store);
    if is_same_retained(&offer.retained, &right) {
        Ok(())
    } else {
        Err(OfferFault::Retained(right))
    }
}

// Whether two retained parts are the same.
fn is_same_retained(retained: &Retained, other: &Retained) -> bool
    ensures { result ≡ is_same_retained retained.now other.now }
{
    retained.len == other.len
        && retained.reach == other.reach
        && retained.counts.as_slice() == other.counts.as_slice()
}
