// Workers, and the run of a level by them.
ghost use Rattle.std.specs.Prelude.{◌≡◌, ◌<◌, ◌≤◌, All, IfOk, map};
ghost use Rattle.mp_base.specs.declared.cell.Entry.{Entry as AnEntry};
ghost use Rattle.ti_scan.specs.Event.{StandsFor};
ghost use Rattle.event_retrieve.specs.Plan.{nodes_in};
ghost use Rattle.event_retrieve.specs.Sequential.{sequential};
ghost use Rattle.spec_run.specs.Told.{ClaimTells};

use crate::bench::Pushed;
use crate::sim::{Helper, Sim};
use crate::speculation::Spec;
use commit_board::{Claim, Ticket};
use event_retrieve::LevelPlan;
use mp_base::{Entry, NoMemory};
use shared_grid::{Cells, CellsWriter, Naming, Site};
use std::alloc::Global;
use std::marker::Brand;
use std::sync::Wait;
use std::thread;
use std::thread::Threads;
use ti_scan::CountStore;
use worker_gate::{Gate, Place};

/// One worker for each helper, each on a thread of its own, until the whole path is committed. The
/// gate is told the helper's number. No helper: no worker.
pub fn run_workers<N: Naming, T: Site, S: CountStore + Sync, G: Gate, R: Threads + Wait + Sync>(
    sim: &Sim<'_, N, T>,
    rt: &R,
    helpers: &mut [Helper<N, T>],
    store: &S,
    gate: &G,
)
    requires store { StandsFor S.gives S.reaches store.now sim.now.source }
    ensures seen { All (λ h. nodes_in sim.now ≤ h.pass) helpers.new }
    ensures numbers { map (λ (h : _). h.number) helpers.new ≡ map (λ (h : _). h.number) helpers.old }
{
    let count = helpers.len();
    if count == 0 {
        return;
    }
    thread::for_each_mut(
        rt,
        helpers,
        count,
        &|_, helper: &mut Helper<N, T>|
            requires { StandsFor S.gives S.reaches store.now sim.now.source }
            ensures seen { nodes_in sim.entry.now ≤ helper.exit.now.pass }
            ensures number { helper.exit.now.number ≡ helper.entry.now.number }
        { work(rt, sim, helper, store, gate) },
    );
}

// A worker's whole run: nodes ahead of their turn as long as there are any to claim, and then what
// the others left.
fn work<N: Naming, T: Site, S: CountStore, G: Gate, R: Wait>(
    rt: &R,
    sim: &Sim<'_, N, T>,
    helper: &mut Helper<N, T>,
    store: &S,
    gate: &G,
)
    requires store { StandsFor S.gives S.reaches store.now sim.now.source }
    ensures seen { nodes_in sim.now ≤ helper.new.pass }
    ensures number { helper.new.number ≡ helper.old.number }
{
    let mut claim = sim.claim(rt, &mut helper.pass);
    for _ in rt.forever() {
        claim = match claim {
            Claim::Ticket(ticket) => count_ahead(rt, sim, helper, store, gate, &ticket),
            Claim::Full { .. } => {
                sim.push_front(rt, &mut helper.pass, store);
                sim.claim(rt, &mut helper.pass)
            }
            Claim::AllClaimed { .. } => {
                push_to_end(rt, sim, helper, store);
                return;
            }
        };
    }
    unreachable!()
}

// Counts a claimed node ahead of its turn, offers what was counted, and claims the next.
fn count_ahead<N: Naming, T: Site, S: CountStore, G: Gate, R: Wait>(
    rt: &R,
    sim: &Sim<'_, N, T>,
    helper: &mut Helper<N, T>,
    store: &S,
    gate: &G,
    ticket: &Ticket,
) -> Claim
    requires store { StandsFor S.gives S.reaches store.now sim.now.source }
    requires ticket { ticket.now.index < nodes_in sim.now }
    ensures number { helper.new.number ≡ helper.old.number }
    ensures tells { ClaimTells N.window (nodes_in sim.now) helper.new.pass result }
{
    gate.at(helper.number, Place::Claimed, ticket.index());
    let spec = sim.speculate(&mut helper.pass, ticket, store);
    gate.at(helper.number, Place::Speculated, ticket.index());
    match spec {
        Spec::Made(offer) => sim.offer_and_claim(rt, &mut helper.pass, store, offer),
        Spec::Late { .. } => sim.claim(rt, &mut helper.pass),
    }
}

// Pushes the front until the whole path is committed.
fn push_to_end<N: Naming, T: Site, S: CountStore, R: Wait>(
    rt: &R,
    sim: &Sim<'_, N, T>,
    helper: &mut Helper<N, T>,
    store: &S,
)
    requires store { StandsFor S.gives S.reaches store.now sim.now.source }
    ensures seen { nodes_in sim.now ≤ helper.new.pass }
    ensures number { helper.new.number ≡ helper.old.number }
{
    for _ in rt.forever() {
        if let Pushed::Ended { .. } = sim.push_front(rt, &mut helper.pass, store) {
            return;
        }
    }
    unreachable!()
}

/// The sequential log of a level, by so many workers, which claim at most `window` nodes ahead of
/// the front.
pub fn run_level_by<S: CountStore + Sync, G: Gate, R: Threads + Wait + Sync>(
    rt: &R,
    alloc: Global,
    plan: &LevelPlan<'_>,
    store: &S,
    gate: &G,
    workers: u8,
    window: u16,
) -> Result<Vec<Entry>, NoMemory>
    requires workers { (1 ≤ workers) × (workers ≤ 64) }
    requires window { (1 ≤ window) × (window ≤ 256) }
    requires store { StandsFor S.gives S.reaches store.now plan.now.source }
    ensures log { IfOk result (λ log. log.items ≡ sequential plan.now) }
    ensures cats { IfOk result (λ log. All (λ (e : AnEntry). e.cat < plan.now.source.cats) log.items) }
{
    run_named::<Brand, S, G, R>(rt, alloc, plan, store, gate, workers, window)
}

// The same under a name of the plan and window: it is chosen at the call.
fn run_named<N: Naming, S: CountStore + Sync, G: Gate, R: Threads + Wait + Sync>(
    rt: &R,
    alloc: Global,
    plan: &LevelPlan<'_>,
    store: &S,
    gate: &G,
    workers: u8,
    window: u16,
) -> Result<Vec<Entry>, NoMemory>
    requires plan { plan.now ≡ N.plan }
    requires story { N.story ≡ sequential N.plan }
    requires workers { (1 ≤ workers) × (workers ≤ 64) }
    requires window { (window ≡ N.window) × (1 ≤ window) × (window ≤ 256) }
    requires store { StandsFor S.gives S.reaches store.now plan.now.source }
    ensures log { IfOk result (λ log. log.items ≡ sequential plan.now) }
    ensures cats { IfOk result (λ log. All (λ (e : AnEntry). e.cat < plan.now.source.cats) log.items) }
{
    let _ = plan.length();
    let (cells, writer) = Cells::<N>::new(alloc, plan.start())?;
    run_sited::<N, Brand, S, G, R>(rt, alloc, plan, store, gate, cells, writer, workers, window)
}

// The same under a site of the cells: it is chosen at the call, once the cells are made.
fn run_sited<N: Naming, T: Site, S: CountStore + Sync, G: Gate, R: Threads + Wait + Sync>(
    rt: &R,
    alloc: Global,
    plan: &LevelPlan<'_>,
    store: &S,
    gate: &G,
    cells: Cells<N>,
    writer: CellsWriter<N>,
    workers: u8,
    window: u16,
) -> Result<Vec<Entry>, NoMemory>
    requires plan { plan.now ≡ N.plan }
    requires story { N.story ≡ sequential N.plan }
    requires cells { cells ≡ T.words }
    requires writer { writer ≡ T.words }
    requires workers { (1 ≤ workers) × (workers ≤ 64) }
    requires window { (window ≡ N.window) × (1 ≤ window) × (window ≤ 256) }
    requires store { StandsFor S.gives S.reaches store.now plan.now.source }
    ensures log { IfOk result (λ log. log.items ≡ sequential plan.now) }
    ensures cats { IfOk result (λ log. All (λ (e : AnEntry). e.cat < plan.now.source.cats) log.items) }
{
    let (sim, mut helpers) = Sim::<'_, N, T>::make(alloc, plan, cells, writer, window, workers)?;
    run_workers(&sim, rt, helpers.as_mut_slice(), store, gate);
    Ok(sim.finish(store, &helpers[0].pass))
}
