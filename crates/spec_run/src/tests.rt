// Workers over small levels.
ghost use Rattle.std.specs.Prelude.{◌≡◌, ◌<◌, ◌≤◌, All, IfOk};
ghost use Rattle.std.specs.Thread.{IsSync};
ghost use Rattle.mp_base.specs.declared.cell.Entry.{Entry as EntryOf};
ghost use Rattle.mp_base.specs.Grid.{IsBelow};
ghost use Rattle.ti_scan.specs.Event.{StandsFor};
ghost use Rattle.event_retrieve.specs.Plan.{KnowsNodes};
ghost use Rattle.event_retrieve.specs.Sequential.{sequential};
ghost use Rattle.seq_engine.specs.Store.{store_counts, store_reach};

use crate::{Workers, run_level_by};
use event_retrieve::LevelPlan;
use mp_base::{Cat, CellId, Counts, Entry, Grid, NoMemory, Shape};
use path_stream::Words;
use seq_engine::{LevelRunner, Store, StoreKind, Stores, run_level};
use servo_fraction::Target;
use std::alloc::Global;
use std::sync::Wait;
use std::sync::atomic::AtomicBool;
use std::sync::atomic::Ordering::SeqCst;
use std::test::Fail;
use std::thread;
use std::thread::Threads;
use template_order::Template;
use ti_scan::Eroded;
use worker_gate::{Gate, HoldGate, OpenGate, Place};

// How many turns a held worker waits at most.
const TURNS: u32 = 1_000_000_000;

// Unknown cells.
pub(crate) fn blank(alloc: Global, shape: Shape) -> Result<Grid, NoMemory>
    ensures sides { IfOk result (λ g. g.sides ≡ shape) }
    ensures below { IfOk result (λ g. All (IsBelow 2) g.cells) }
    ensures nodes { IfOk result (λ g. KnowsNodes g 1) }
{
    Grid::unknown(alloc, shape)
}

// An image of one row, of two categories.
pub(crate) fn row(alloc: Global, cats: &[u8; 6]) -> Result<Grid, Fail>
    requires below { All (λ k. k < 2) cats.now }
    ensures { IfOk result (λ g. All (IsBelow 2) g.cells) }
{
    let mut image = blank(alloc, Shape::new(6, 1, 1)?)?;
    for number in 0..6 {
        image.set(CellId(number as u32), Some(Cat(cats[number])));
    }
    Ok(image)
}

// A plan over unknown cells.
pub(crate) fn plan_of<'a>(
    alloc: Global,
    eroded: &'a Eroded<'a>,
    start: Grid,
    seed: u64,
    servo: u16,
) -> Result<LevelPlan<'a>, Fail>
    requires servo { servo ≤ 999 }
    requires cats { eroded.now.cats ≡ 2 }
    requires nodes { KnowsNodes start 1 }
    requires below { All (IsBelow 2) start.cells }
{
    let target = Target::new(Counts::of(&[3, 3]));
    let words = Words::new(seed, 0);
    Ok(LevelPlan::new(alloc, 1, eroded, start, words, target, servo, 1, 64)?)
}

// The log by so many workers, which pass this gate.
fn run_gated<G: Gate, R: Threads + Wait + Sync>(
    rt: &R,
    alloc: Global,
    plan: &LevelPlan<'_>,
    gate: &G,
    workers: u8,
    window: u16,
) -> Result<Vec<Entry>, NoMemory> {
    let workers = workers.clamp(1, 64);
    let window = window.clamp(1, 256);
    run_level_by(rt, alloc, plan, plan.eroded(), gate, workers, window)
}

// The log on one thread.
fn run_alone(alloc: Global, plan: &LevelPlan<'_>) -> Result<Vec<Entry>, NoMemory> {
    run_level(alloc, plan, plan.eroded())
}

// The log by a runner of four workers.
fn run_by_runner<R: Threads + Wait + Sync>(
    rt: &R,
    alloc: Global,
    plan: &LevelPlan<'_>,
    kind: StoreKind,
) -> Result<Vec<Entry>, NoMemory> {
    let simulate = |alloc: Global, plan: &LevelPlan<'_>, store: Store<'_>| -> Result<
        Vec<Entry>,
        NoMemory,
    >
        requires threads { IsSync R.row }
        requires store { StandsFor store_counts store_reach store plan.now.source }
        ensures log { IfOk result (λ log. log.items ≡ sequential plan.now) }
        ensures cats { IfOk result (λ log. All (λ (e : EntryOf). e.cat < plan.now.source.cats) log.items) }
    { run_level_by(rt, alloc, plan, &store, &OpenGate, 4, 16) };
    let mut runner = Workers::new(rt, Stores::new(kind), simulate);
    runner.run(alloc, plan)
}

#[test]
fn workers_give_the_sequential_log(rt: HostRuntime) -> Result<(), Fail> {
    let image = row(rt.alloc(), &[0, 0, 0, 1, 1, 1])?;
    let template = Template::new(rt.alloc(), [1, 0, 0], 2)?;
    let eroded = Eroded::new(rt.alloc(), &image, &template, 2)?;
    let start = blank(rt.alloc(), Shape::new(20, 10, 1)?)?;
    let plan = plan_of(rt.alloc(), &eroded, start, 7, 300)?;
    let one = run_alone(rt.alloc(), &plan)?;
    let log = one.as_slice();
    assert_eq!(rt; log.len(), 200);
    for (workers, window) in [(1, 1), (2, 64), (3, 2), (8, 256), (64, 64)] {
        let by = run_gated(&rt, rt.alloc(), &plan, &OpenGate, workers, window)?;
        assert_eq!(rt; by.as_slice(), log);
    }
    for kind in [StoreKind::Scan, StoreKind::Tree, StoreKind::List] {
        let by = run_by_runner(&rt, rt.alloc(), &plan, kind)?;
        assert_eq!(rt; by.as_slice(), log);
    }
    Ok(())
}

// A gate that holds each of the first two workers where it has claimed its first path node, until the
// other has claimed one.
#[derive(Drop)]
struct MeetingGate {
    first: AtomicBool,
    second: AtomicBool,
    ran_out: AtomicBool,
}

impl MeetingGate {
    fn new() -> MeetingGate {
        MeetingGate {
            first: AtomicBool::new(false),
            second: AtomicBool::new(false),
            ran_out: AtomicBool::new(false),
        }
    }

    // Whether both came, and neither hold ran out of turns.
    fn met(&self) -> bool {
        self.first.load(SeqCst) && self.second.load(SeqCst) && !self.ran_out.load(SeqCst)
    }

    // Holds a worker at its first call, until the other came.
    fn hold(&self, own: &AtomicBool, other: &AtomicBool) {
        if own.swap(true, SeqCst) {
            return;
        }
        for _ in 0..TURNS {
            if other.load(SeqCst) {
                return;
            }
            thread::yield_now();
        }
        self.ran_out.store(true, SeqCst);
    }
}

impl Gate for MeetingGate {
    fn at(&self, worker: u32, place: Place, _index: u32) {
        match (worker, place) {
            (0, Place::Claimed) => self.hold(&self.first, &self.second),
            (1, Place::Claimed) => self.hold(&self.second, &self.first),
            _ => {}
        }
    }
}

#[test]
fn two_workers_meet(rt: HostRuntime) -> Result<(), Fail> {
    let image = row(rt.alloc(), &[1; 6])?;
    let template = Template::new(rt.alloc(), [1, 0, 0], 2)?;
    let eroded = Eroded::new(rt.alloc(), &image, &template, 2)?;
    let start = blank(rt.alloc(), Shape::new(100, 100, 1)?)?;
    let plan = plan_of(rt.alloc(), &eroded, start, 7, 300)?;
    let held = HoldGate::new(TURNS);
    let log = run_gated(&rt, rt.alloc(), &plan, &held, 2, 64)?;
    assert!(rt; held.met());
    assert_eq!(rt; log.len(), 10_000);
    let meeting = MeetingGate::new();
    let again = run_gated(&rt, rt.alloc(), &plan, &meeting, 2, 64)?;
    assert!(rt; meeting.met());
    assert_eq!(rt; again.as_slice(), log.as_slice());
    Ok(())
}
