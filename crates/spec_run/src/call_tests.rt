// The calls of one worker, one after another, over a level of four nodes.
ghost use Rattle.std.specs.Prelude.{◌≡◌};
ghost use Rattle.event_retrieve.specs.Sequential.{sequential};

use crate::tests::{blank, plan_of, row};
use crate::{Foreign, Pushed, Sim, Spec};
use commit_board::{Claim, Keep, OfferFault};
use event_retrieve::{LevelPlan, Offer, Retained};
use mp_base::{Cat, CellId, Counts, Entry, NoMemory, Shape};
use shared_grid::{Cells, CellsWriter, Naming, Reader, Site};
use std::alloc::Global;
use std::marker::Brand;
use std::sync::Wait;
use std::test::Fail;
use template_order::Template;
use ti_scan::{Eroded, Event};

// What a call is answered, as a plain value.
#[derive(Clone, Copy, Debug, PartialEq, Eq)]
enum Told {
    Ticket(u32),
    Full,
    AllClaimed(u32),
    Front(u32),
    Ended(u32),
    Late(u32),
    Made,
    Taken(Keep),
    NotOfTheFront(u32, u32),
    NotRetained,
    Refused,
}

fn of_claim(claim: &Claim) -> Told {
    match claim {
        Claim::Ticket(ticket) => Told::Ticket(ticket.index()),
        Claim::Full { .. } => Told::Full,
        Claim::AllClaimed { length } => Told::AllClaimed(*length),
    }
}

fn of_push(pushed: Pushed) -> Told {
    match pushed {
        Pushed::Front { front } => Told::Front(front),
        Pushed::Ended { length } => Told::Ended(length),
    }
}

fn of_spec(spec: &Spec) -> Told {
    match spec {
        Spec::Late { front } => Told::Late(*front),
        Spec::Made(_) => Told::Made,
    }
}

fn of_foreign(foreign: &Foreign) -> Told {
    match foreign {
        Foreign::Taken(keep) => Told::Taken(*keep),
        Foreign::Refused(OfferFault::Index { index, front }) => Told::NotOfTheFront(*index, *front),
        Foreign::Refused(OfferFault::Retained(_)) => Told::NotRetained,
        Foreign::Refused(_) => Told::Refused,
    }
}

// Whose calls are made.
#[derive(Clone, Copy, Debug, PartialEq, Eq)]
enum Caller {
    // A worker that claims all nodes and commits them before it counts the first.
    Slow,
    // A stranger who offers the first node: wrongly, unclaimed, claimed and once more.
    Stranger,
}

// An offer of the first node, whose event is empty.
fn first_offer(counts: [u32; 2]) -> Offer {
    Offer {
        index: 0,
        seen: 0,
        event: Event::empty(),
        retained: Retained {
            len: 0,
            reach: 2,
            counts: Counts::of(&counts),
        },
    }
}

fn slow_calls<N: Naming, T: Site, R: Wait>(
    rt: &R,
    sim: &Sim<'_, N, T>,
    pass: &mut Reader<N, T>,
    store: &Eroded<'_>,
    told: &mut Vec<Told>,
) -> Result<(), NoMemory>
    requires store { store.now ≡ sim.now.source }
{
    let first = sim.claim(rt, pass);
    told.push(of_claim(&first))?;
    for _ in 0..4 {
        told.push(of_claim(&sim.claim(rt, pass)))?;
    }
    for _ in 0..5 {
        told.push(of_push(sim.push_front(rt, pass, store)))?;
    }
    if let Claim::Ticket(ticket) = &first {
        told.push(of_spec(&sim.speculate(pass, ticket, store)))?;
    }
    Ok(())
}

fn stranger_calls<N: Naming, T: Site, R: Wait>(
    rt: &R,
    sim: &Sim<'_, N, T>,
    pass: &mut Reader<N, T>,
    store: &Eroded<'_>,
    told: &mut Vec<Told>,
) -> Result<(), NoMemory>
    requires store { store.now ≡ sim.now.source }
{
    for counts in [[2, 3], [1, 3]] {
        told.push(of_foreign(&sim.offer_foreign(rt, pass, store, first_offer(counts))))?;
    }
    told.push(of_claim(&sim.claim(rt, pass)))?;
    for _ in 0..2 {
        told.push(of_foreign(&sim.offer_foreign(rt, pass, store, first_offer([1, 3]))))?;
    }
    for _ in 0..3 {
        told.push(of_push(sim.push_front(rt, pass, store)))?;
    }
    Ok(())
}

// What a caller is told, and then the log.
type Called = (Vec<Told>, Vec<Entry>);

fn sited<N: Naming, T: Site, R: Wait>(
    rt: &R,
    alloc: Global,
    plan: &LevelPlan<'_>,
    cells: Cells<N>,
    writer: CellsWriter<N>,
    caller: Caller,
) -> Result<Called, NoMemory>
    requires plan { plan.now ≡ N.plan }
    requires story { N.story ≡ sequential N.plan }
    requires cells { cells ≡ T.words }
    requires writer { writer ≡ T.words }
    requires window { N.window ≡ 64 }
{
    let (sim, mut helpers) = Sim::<'_, N, T>::make(alloc, plan, cells, writer, 64, 1)?;
    let mut told = Vec::new(alloc);
    let store = plan.eroded();
    let pass = &mut helpers[0].pass;
    match caller {
        Caller::Slow => slow_calls(rt, &sim, pass, store, &mut told)?,
        Caller::Stranger => stranger_calls(rt, &sim, pass, store, &mut told)?,
    }
    let pushed = sim.push_front(rt, pass, store);
    told.push(of_push(pushed))?;
    if let Pushed::Ended { .. } = pushed {
        return Ok((told, sim.finish(store, pass)));
    }
    Ok((told, Vec::new(alloc)))
}

fn named<N: Naming, R: Wait>(
    rt: &R,
    alloc: Global,
    plan: &LevelPlan<'_>,
    caller: Caller,
) -> Result<Called, NoMemory>
    requires plan { plan.now ≡ N.plan }
    requires story { N.story ≡ sequential N.plan }
    requires window { N.window ≡ 64 }
{
    let _ = plan.length();
    let (cells, writer) = Cells::<N>::new(alloc, plan.start())?;
    sited::<N, Brand, R>(rt, alloc, plan, cells, writer, caller)
}

fn called<R: Wait>(rt: &R, alloc: Global, caller: Caller) -> Result<Called, Fail> {
    let image = row(alloc, &[0, 1, 1, 0, 1, 1])?;
    let template = Template::new(alloc, [1, 0, 0], 2)?;
    let eroded = Eroded::new(alloc, &image, &template, 2)?;
    let start = blank(alloc, Shape::new(4, 1, 1)?)?;
    let plan = plan_of(alloc, &eroded, start, 0, 0)?;
    Ok(named::<Brand, R>(rt, alloc, &plan, caller)?)
}

#[test]
fn calls_are_answered_by_what_is_claimed_and_committed(rt: HostRuntime) -> Result<(), Fail> {
    let (told, log) = called(&rt, rt.alloc(), Caller::Slow)?;
    let wanted = [
        Told::Ticket(0),
        Told::Ticket(1),
        Told::Ticket(2),
        Told::Ticket(3),
        Told::AllClaimed(4),
        Told::Front(1),
        Told::Front(2),
        Told::Front(3),
        Told::Front(4),
        Told::Ended(4),
        Told::Late(4),
        Told::Ended(4),
    ];
    assert_eq!(rt; told.as_slice(), wanted.as_slice());
    assert_eq!(rt; log.as_slice(), sequential_log().as_slice());
    Ok(())
}

#[test]
fn strangers_are_vetted(rt: HostRuntime) -> Result<(), Fail> {
    let (told, log) = called(&rt, rt.alloc(), Caller::Stranger)?;
    let wanted = [
        Told::NotRetained,
        Told::Taken(Keep::Unclaimed { index: 0, next: 0 }),
        Told::Ticket(0),
        Told::Taken(Keep::Kept),
        Told::NotOfTheFront(0, 1),
        Told::Front(2),
        Told::Front(3),
        Told::Front(4),
        Told::Ended(4),
    ];
    assert_eq!(rt; told.as_slice(), wanted.as_slice());
    assert_eq!(rt; log.as_slice(), sequential_log().as_slice());
    Ok(())
}

fn sequential_log() -> [Entry; 4] {
    [entry(0, 1), entry(3, 0), entry(1, 1), entry(2, 1)]
}

fn entry(cell: u32, cat: u8) -> Entry {
    Entry {
        cell: CellId(cell),
        cat: Cat(cat),
    }
}
