ghost use Rattle.std.specs.Prelude.{◌≡◌, ◌+◌, ◌<◌, ◌≤◌, All, IfOk, IfSome, length};
ghost use Rattle.mp_base.specs.Grid.{IsBelow};
ghost use Rattle.event_retrieve.specs.Gather.{LiesBetween};
ghost use Rattle.event_retrieve.specs.Offer.{IsSound};
ghost use Rattle.event_retrieve.specs.Plan.{KnowsNodes};
ghost use Rattle.commit_board.specs.Board.{Fits};

use crate::{Board, Claim, Keep, Settle, Ticket};
use event_retrieve::{Gather, LevelPlan, Offer, PlanError, Retained, Wanted, cat_after};
use mp_base::{Cat, CellId, Counts, Entry, Grid, NoMemory, Shape};
use path_stream::Words;
use servo_fraction::Target;
use std::alloc::Global;
use std::process::Abort;
use std::test::Fail;
use template_order::Template;
use ti_scan::Eroded;

// A row of unknown cells.
fn blank(alloc: Global, cells: u32) -> Result<Grid, NoMemory>
    requires some { 1 ≤ cells }
    requires few { cells ≤ 100 }
    ensures sides { IfOk result (λ g. g.sides ≡ record { nx = cells; ny = 1; nz = 1 }) }
    ensures below { IfOk result (λ g. All (IsBelow 2) g.cells) }
    ensures nodes { IfOk result (λ g. KnowsNodes g 1) }
{
    let shape = Shape {
        nx: cells,
        ny: 1,
        nz: 1,
    };
    Grid::unknown(alloc, shape)
}

// An image of one row, of two categories.
pub(crate) fn row(alloc: Global, cats: &[u8]) -> Result<Grid, NoMemory>
    requires some { 1 ≤ length cats.now }
    requires few { length cats.now ≤ 100 }
    requires below { All (λ k. k < 2) cats.now }
    ensures { IfOk result (λ g. All (IsBelow 2) g.cells) }
{
    let mut image = blank(alloc, cats.len() as u32)?;
    for i in 0..cats.len() {
        image.set(CellId(i as u32), Some(Cat(cats[i])));
    }
    Ok(image)
}

// A plan over a row of unknown cells, by the words of the seed 0 and the stream 0.
pub(crate) fn plan_of<'a>(
    alloc: Global,
    eroded: &'a Eroded<'a>,
    cells: u32,
    min_replicates: u32,
    max_data: u8,
) -> Result<LevelPlan<'a>, PlanError>
    requires cats { eroded.now.cats ≡ 2 }
    requires cells { (1 ≤ cells) × (cells ≤ 100) }
    requires replicates { 1 ≤ min_replicates }
    requires data_ { (1 ≤ max_data) × (max_data ≤ 64) }
    ensures source { IfOk result (λ p. p.source ≡ eroded.now) }
{
    let start = blank(alloc, cells)?;
    let target = Target::new(Counts::of(&[2, 4]));
    LevelPlan::new(
        alloc,
        1,
        eroded,
        start,
        Words::new(0, 0),
        target,
        0,
        min_replicates,
        max_data,
    )
}

fn entry(cell: u32, cat: u8) -> Entry {
    Entry {
        cell: CellId(cell),
        cat: Cat(cat),
    }
}

fn committed(cell: u32, cat: u8) -> Settle {
    Settle::Committed(entry(cell, cat))
}

// Counts the front again and settles it, until so many nodes are committed.
pub(crate) fn commit_up_to(board: &mut Board, plan: &LevelPlan<'_>, eroded: &Eroded<'_>, front: u32)
    requires fits { Fits plan.now board.old }
    requires source { plan.now.source ≡ eroded.now }
    ensures fits { Fits plan.now board.new }
{
    for _ in 0..front {
        commit_next(board, plan, eroded, front);
    }
}

fn commit_next(board: &mut Board, plan: &LevelPlan<'_>, eroded: &Eroded<'_>, front: u32)
    requires fits { Fits plan.now board.old }
    requires source { plan.now.source ≡ eroded.now }
    ensures fits { Fits plan.now board.new }
{
    if board.front() >= front || board.front() >= board.length() {
        return;
    }
    board.recount(plan, eroded);
    board.settle(plan);
}

// A node looks at its next template positions.
fn look(plan: &LevelPlan<'_>, board: &Board, gather: &mut Gather, seen: u32, count: u32)
    requires fits { Fits plan.now board.now }
    requires index { gather.old.index < length plan.now.path }
    requires seen { (seen ≤ gather.old.index) × (seen ≤ length board.now.log) }
    requires near { gather.old.position ≤ length plan.now.source.template + 1 }
    requires between { LiesBetween plan.now seen gather.old }
    ensures index { gather.new.index ≡ gather.old.index }
    ensures near { gather.new.position ≤ length plan.now.source.template + 1 }
    ensures between { LiesBetween plan.now seen gather.new }
{
    for _ in 0..count {
        look_once(plan, board, gather, seen);
    }
}

fn look_once(plan: &LevelPlan<'_>, board: &Board, gather: &mut Gather, seen: u32)
    requires fits { Fits plan.now board.now }
    requires index { gather.old.index < length plan.now.path }
    requires seen { (seen ≤ gather.old.index) × (seen ≤ length board.now.log) }
    requires near { gather.old.position ≤ length plan.now.source.template + 1 }
    requires between { LiesBetween plan.now seen gather.old }
    ensures index { gather.new.index ≡ gather.old.index }
    ensures near { gather.new.position ≤ length plan.now.source.template + 1 }
    ensures between { LiesBetween plan.now seen gather.new }
{
    let _ = plan.length();
    match gather.wanted(plan) {
        Wanted::Done => {}
        Wanted::Outside { .. } => gather.put(plan, None),
        Wanted::Later { .. } => gather.put(plan, None),
        Wanted::Cell { cell, .. } => gather.put(plan, cat_after(plan, board.log(), cell)),
    }
}

// The offer of a node that has looked at all positions.
fn offer_of(gather: Gather, plan: &LevelPlan<'_>, seen: u32, eroded: &Eroded<'_>) -> Option<Offer>
    requires source { plan.now.source ≡ eroded.now }
    requires index { gather.index < length plan.now.path }
    requires seen { seen ≤ gather.index }
    requires near { gather.position ≤ length plan.now.source.template + 1 }
    requires between { LiesBetween plan.now seen gather }
    ensures { IfSome result (λ o. IsSound plan.now o) }
{
    match gather.wanted(plan) {
        Wanted::Done => Some(gather.into_offer(plan, seen, eroded)),
        _ => None,
    }
}

// The offer of a node that looks at all positions now.
fn offer_now(plan: &LevelPlan<'_>, board: &Board, eroded: &Eroded<'_>, index: u32) -> Option<Offer>
    requires fits { Fits plan.now board.now }
    requires source { plan.now.source ≡ eroded.now }
    ensures { IfSome result (λ o. IsSound plan.now o) }
{
    let seen = board.front();
    if index < seen || index >= plan.length() {
        return None;
    }
    let mut gather = Gather::new(index);
    look(plan, board, &mut gather, seen, 4);
    offer_of(gather, plan, seen, eroded)
}

// What is done with the node of index 3 on a path of five nodes.
#[derive(Drop)]
struct Case {
    max_data: u8,
    // How many nodes are committed when it begins to look.
    seen: u32,
    // How many positions it looks at before the other nodes before it are committed.
    early: u32,
}

// How many data, which reach and which counts are retained.
pub(crate) type Expected = (u8, u8, [u32; 2]);

// What is seen of it: what its offer retains, what settling it is answered, and what counting the front
// again retains afterwards.
#[derive(Drop)]
struct Course {
    offered: Expected,
    settled: Settle,
    recounted: Expected,
}

// Whether this is seen of it over a new board.
fn goes(alloc: Global, case: &Case, course: &Course) -> Result<bool, PlanError>
    requires { (1 ≤ case.now.max_data) × (case.now.max_data ≤ 64) }
{
    let image = row(alloc, &[0, 0, 1, 1, 0, 1, 0, 0])?;
    let template = Template::new(alloc, [2, 0, 0], 4)?;
    let eroded = Eroded::new(alloc, &image, &template, 2)?;
    let plan = plan_of(alloc, &eroded, 5, 2, case.max_data)?;
    let mut board = Board::new(alloc, &plan, 64)?;
    Ok(goes_on(&mut board, &plan, &eroded, case, course))
}

fn goes_on(
    board: &mut Board,
    plan: &LevelPlan<'_>,
    eroded: &Eroded<'_>,
    case: &Case,
    course: &Course,
) -> bool
    requires fits { Fits plan.now board.old }
    requires source { plan.now.source ≡ eroded.now }
{
    commit_up_to(board, plan, eroded, case.seen);
    claim_all(board, plan);
    let Some(offer) = offer_of_third(board, plan, eroded, case) else {
        return false;
    };
    if !retains(&offer.retained, course.offered) {
        return false;
    }
    board.keep(offer);
    commit_up_to(board, plan, eroded, 3);
    settles(board, plan, eroded, course)
}

fn settles(board: &mut Board, plan: &LevelPlan<'_>, eroded: &Eroded<'_>, course: &Course) -> bool
    requires fits { Fits plan.now board.old }
    requires source { plan.now.source ≡ eroded.now }
{
    if board.settle(plan) != course.settled || board.front() >= board.length() {
        return false;
    }
    retains(&board.recount(plan, eroded), course.recounted)
}

fn claim_all(board: &mut Board, plan: &LevelPlan<'_>)
    requires { Fits plan.now board.old }
    ensures { Fits plan.now board.new }
{
    for _ in 0..plan.length() {
        board.claim();
    }
}

// The offer of the node of index 3, which may be late with its last positions.
fn offer_of_third(
    board: &mut Board,
    plan: &LevelPlan<'_>,
    eroded: &Eroded<'_>,
    case: &Case,
) -> Option<Offer>
    requires fits { Fits plan.now board.old }
    requires source { plan.now.source ≡ eroded.now }
    ensures fits { Fits plan.now board.new }
    ensures sound { IfSome result (λ o. IsSound plan.now o) }
{
    let seen = board.front();
    if seen > 3 || plan.length() < 5 {
        return None;
    }
    let mut gather = Gather::new(3);
    look(plan, board, &mut gather, seen, case.early);
    if case.early < 4 {
        commit_up_to(board, plan, eroded, 3);
        if board.front() < seen {
            return None;
        }
        look(plan, board, &mut gather, seen, 4 - case.early);
    }
    offer_of(gather, plan, seen, eroded)
}

#[test]
fn an_offer_is_stale_by_what_it_misses_up_to_its_reach(rt: HostRuntime) -> Result<(), Fail> {
    let here = (1, 3, [0, 2]);
    let far = (1, 4, [0, 2]);
    let near = (1, 1, [0, 2]);
    let (next, next_near) = ((1, 2, [1, 1]), (1, 1, [1, 1]));
    for (max_data, seen, early, offered, settled, recounted) in [
        (64, 2, 4, here, committed(2, 1), next),
        (64, 1, 4, far, stale_third(), here),
        (64, 1, 3, far, stale_third(), here),
        (1, 1, 4, near, committed(2, 1), next_near),
    ] {
        let case = Case {
            max_data,
            seen,
            early,
        };
        let course = Course {
            offered,
            settled,
            recounted,
        };
        assert!(rt; goes(rt.alloc(), &case, &course)?);
    }
    Ok(())
}

// The offer of the third node misses entry 1 at position 3.
fn stale_third() -> Settle {
    Settle::Stale {
        front: 3,
        entry: 1,
        position: 3,
    }
}

// Whether so many data, this reach and these counts are retained.
fn retains(retained: &Retained, expected: Expected) -> bool {
    (retained.len, retained.reach) == (expected.0, expected.1)
        && retained.counts.as_slice() == expected.2.as_slice()
}

// Two nodes are claimed, and no offer comes.
fn claims_fill_the_window(rt: &impl Abort, board: &mut Board, plan: &LevelPlan<'_>)
    requires { Fits plan.now board.old }
    ensures { Fits plan.now board.new }
{
    assert_eq!(rt; board.claim(), Claim::Ticket(Ticket::new(0)));
    assert_eq!(rt; board.claim(), Claim::Ticket(Ticket::new(1)));
    assert_eq!(rt; board.claim(), Claim::Full { next: 2, front: 0 });
    assert_eq!(rt; board.settle(plan), Settle::NotOffered { front: 0 });
}

// The front is counted again and settled, which makes room for a third claim.
fn the_front_is_committed(
    rt: &impl Abort,
    board: &mut Board,
    plan: &LevelPlan<'_>,
    eroded: &Eroded<'_>,
)
    requires fits { Fits plan.now board.old }
    requires source { plan.now.source ≡ eroded.now }
    ensures fits { Fits plan.now board.new }
{
    assert!(rt; board.front() < board.length());
    let retained = board.recount(plan, eroded);
    assert!(rt; retains(&retained, (0, 2, [1, 3])));
    assert_eq!(rt; board.settle(plan), committed(0, 1));
    assert_eq!(rt; board.claim(), Claim::Ticket(Ticket::new(2)));
}

// Nothing is left to settle or to claim.
fn the_path_has_ended(rt: &impl Abort, board: &mut Board, plan: &LevelPlan<'_>)
    requires { Fits plan.now board.old }
{
    assert_eq!(rt; board.settle(plan), Settle::Ended { length: 4 });
    assert_eq!(rt; board.claim(), Claim::AllClaimed { length: 4 });
}

#[test]
fn each_call_of_a_board_answers_by_what_is_claimed_kept_and_committed(
    rt: HostRuntime,
) -> Result<(), Fail> {
    let image = row(rt.alloc(), &[0, 1, 1, 0, 1, 1])?;
    let template = Template::new(rt.alloc(), [1, 0, 0], 2)?;
    let eroded = Eroded::new(rt.alloc(), &image, &template, 2)?;
    let plan = plan_of(rt.alloc(), &eroded, 4, 1, 64)?;
    let mut board = Board::new(rt.alloc(), &plan, 2)?;
    claims_fill_the_window(&rt, &mut board, &plan);
    the_front_is_committed(&rt, &mut board, &plan, &eroded);
    commit_up_to(&mut board, &plan, &eroded, 4);
    the_path_has_ended(&rt, &mut board, &plan);
    let entries = [entry(0, 1), entry(3, 0), entry(1, 1), entry(2, 1)];
    assert_eq!(rt; board.into_log().as_slice(), entries.as_slice());
    Ok(())
}

// The first node's offers are kept once, and late after its turn.
fn offers_of_the_first(
    rt: &impl Abort,
    board: &mut Board,
    plan: &LevelPlan<'_>,
    eroded: &Eroded<'_>,
)
    requires fits { Fits plan.now board.old }
    requires source { plan.now.source ≡ eroded.now }
    ensures fits { Fits plan.now board.new }
{
    let held = Keep::Held { index: 0 };
    assert_eq!(rt; kept(board, plan, eroded, 0), Some(Keep::Kept));
    assert_eq!(rt; kept(board, plan, eroded, 0), Some(held));
    let late = offer_now(plan, board, eroded, 0);
    assert_eq!(rt; board.settle(plan), committed(0, 1));
    let Some(late) = late else {
        panic!(rt; "no offer");
    };
    assert_eq!(rt; board.keep(late), Keep::Late { front: 1 });
}

#[test]
fn an_offer_is_kept_once_between_its_claim_and_its_turn(rt: HostRuntime) -> Result<(), Fail> {
    let image = row(rt.alloc(), &[0, 1, 1, 0, 1, 1])?;
    let template = Template::new(rt.alloc(), [1, 0, 0], 2)?;
    let eroded = Eroded::new(rt.alloc(), &image, &template, 2)?;
    let plan = plan_of(rt.alloc(), &eroded, 4, 1, 64)?;
    let mut board = Board::new(rt.alloc(), &plan, 64)?;
    board.claim();
    offers_of_the_first(&rt, &mut board, &plan, &eroded);
    let unclaimed = Keep::Unclaimed { index: 3, next: 1 };
    assert_eq!(rt; kept(&mut board, &plan, &eroded, 3), Some(unclaimed));
    Ok(())
}

// What an offer that is made now is answered.
fn kept(board: &mut Board, plan: &LevelPlan<'_>, eroded: &Eroded<'_>, index: u32) -> Option<Keep>
    requires fits { Fits plan.now board.old }
    requires source { plan.now.source ≡ eroded.now }
    ensures fits { Fits plan.now board.new }
{
    let offer = offer_now(plan, board, eroded, index)?;
    Some(board.keep(offer))
}
