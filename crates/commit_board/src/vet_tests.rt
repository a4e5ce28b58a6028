ghost use Rattle.std.specs.Prelude.{◌≡◌};
ghost use Rattle.commit_board.specs.Board.{Fits};

use crate::tests::{Expected, commit_up_to, plan_of, row};
use crate::{Board, Keep, OfferFault, Settle};
use event_retrieve::{LevelPlan, Offer, PlanError, Retained};
use mp_base::{Cat, Counts};
use std::alloc::Global;
use std::test::Fail;
use template_order::Template;
use ti_scan::{Datum, Eroded, Event};

// An offer whose event has at most one datum, a position and a category.
#[derive(Clone, Copy)]
struct Stranger {
    index: u32,
    seen: u32,
    datum: Option<(u8, u8)>,
    retained: Expected,
}

fn offered(index: u32, seen: u32, datum: Option<(u8, u8)>, retained: Expected) -> Stranger {
    Stranger {
        index,
        seen,
        datum,
        retained,
    }
}

// What a vetting answers, as a plain value.
#[derive(Clone, Copy, Debug, PartialEq, Eq)]
enum Answer {
    Sound,
    Index { index: u32, front: u32 },
    Seen { seen: u32, index: u32 },
    Missing { position: u8 },
    Extra { position: u8 },
    Retained(u8, u8, [u32; 2]),
}

fn event_of(datum: Option<(u8, u8)>) -> Event {
    let mut event = Event::empty();
    if let Some((position, cat)) = datum {
        if 1 <= position && position <= 64 {
            event.push(Datum {
                position,
                cat: Cat(cat),
            });
        }
    }
    event
}

fn offer_of(stranger: Stranger) -> Offer {
    let (len, reach, counts) = stranger.retained;
    Offer {
        index: stranger.index,
        seen: stranger.seen,
        event: event_of(stranger.datum),
        retained: Retained {
            len,
            reach,
            counts: Counts::of(&counts),
        },
    }
}

fn answer_of(vetting: &Result<(), OfferFault>) -> Answer {
    match vetting {
        Ok(()) => Answer::Sound,
        Err(OfferFault::Index { index, front }) => Answer::Index {
            index: *index,
            front: *front,
        },
        Err(OfferFault::Seen { seen, index }) => Answer::Seen {
            seen: *seen,
            index: *index,
        },
        Err(OfferFault::Missing { position }) => Answer::Missing {
            position: *position,
        },
        Err(OfferFault::Extra { position }) => Answer::Extra {
            position: *position,
        },
        Err(OfferFault::Retained(right)) => {
            Answer::Retained(right.len, right.reach, two_of(right.counts.as_slice()))
        }
    }
}

fn two_of(counts: &[u32]) -> [u32; 2] {
    match counts {
        [first, second] => [*first, *second],
        _ => [0, 0],
    }
}

// What is answered of an offer where two of four nodes are committed, and what settling is answered
// once it is kept, if it is sound.
fn vetted(alloc: Global, stranger: Stranger) -> Result<(Answer, Option<Settle>), PlanError> {
    let image = row(alloc, &[0, 1, 1, 0, 1, 1])?;
    let template = Template::new(alloc, [1, 0, 0], 2)?;
    let eroded = Eroded::new(alloc, &image, &template, 2)?;
    let plan = plan_of(alloc, &eroded, 4, 1, 64)?;
    let mut board = Board::new(alloc, &plan, 64)?;
    commit_up_to(&mut board, &plan, &eroded, 2);
    Ok(vetted_by(&mut board, &plan, &eroded, stranger))
}

fn vetted_by(
    board: &mut Board,
    plan: &LevelPlan<'_>,
    eroded: &Eroded<'_>,
    stranger: Stranger,
) -> (Answer, Option<Settle>)
    requires fits { Fits plan.now board.old }
    requires source { plan.now.source ≡ eroded.now }
{
    let offer = offer_of(stranger);
    let vetting = board.vet(plan, eroded, &offer);
    let answer = answer_of(&vetting);
    if vetting.is_err() {
        return (answer, None);
    }
    board.claim();
    if board.keep(offer) != Keep::Kept {
        return (answer, None);
    }
    (answer, Some(board.settle(plan)))
}

#[test]
fn a_vetting_names_the_first_fault_of_an_offer(rt: HostRuntime) -> Result<(), Fail> {
    let empty = (0, 2, [1, 3]);
    let near = (1, 2, [1, 1]);
    for (stranger, answer) in [
        (offered(2, 0, None, empty), Answer::Sound),
        (offered(2, 2, Some((1, 1)), near), Answer::Sound),
        (offered(2, 1, None, empty), Answer::Missing { position: 1 }),
        (
            offered(2, 0, Some((1, 0)), (1, 2, [0, 2])),
            Answer::Extra { position: 1 },
        ),
        (
            offered(2, 0, Some((9, 0)), empty),
            Answer::Extra { position: 9 },
        ),
        (
            offered(2, 2, Some((1, 1)), (1, 2, [2, 1])),
            Answer::Retained(1, 2, [1, 1]),
        ),
        (
            offered(2, 3, Some((1, 1)), near),
            Answer::Seen { seen: 3, index: 2 },
        ),
        (
            offered(3, 0, None, empty),
            Answer::Index { index: 3, front: 2 },
        ),
    ] {
        let (found, _) = vetted(rt.alloc(), stranger)?;
        assert_eq!(rt; found, answer);
    }
    Ok(())
}

#[test]
fn a_sound_offer_of_a_stranger_may_be_stale(rt: HostRuntime) -> Result<(), Fail> {
    let (_, settled) = vetted(rt.alloc(), offered(2, 0, None, (0, 2, [1, 3])))?;
    let stale = Settle::Stale {
        front: 2,
        entry: 0,
        position: 1,
    };
    assert_eq!(rt; settled, Some(stale));
    Ok(())
}
