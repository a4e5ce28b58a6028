// The simulation of one level, shared by workers.
ghost use Rattle.std.specs.Prelude.{◌≡◌, ◌<◌, ◌≤◌, length, map, All, IfOk};
ghost use Rattle.std.specs.List.{range_with_len};
ghost use Rattle.mp_base.specs.declared.cell.Entry.{Entry as AnEntry};
ghost use Rattle.ti_scan.specs.Event.{StandsFor};
ghost use Rattle.event_retrieve.specs.Offer.{IsSound};
ghost use Rattle.event_retrieve.specs.Plan.{nodes_in};
ghost use Rattle.event_retrieve.specs.Sequential.{sequential};
ghost use Rattle.spec_run.specs.Told.{ClaimTells, ForeignTells, KeepTells, PushTells, SpecTells};

use crate::bench::{Bench, Foreign, Pushed};
use crate::speculation::{Spec, gather_event};
use commit_board::{Board, Claim, Keep, Ticket};
use event_retrieve::{LevelPlan, Offer, Surroundings};
use mp_base::{Entry, NoMemory};
use shared_grid::{Cells, CellsWriter, Naming, Reader, SharedGrid, Site};
use std::alloc::Global;
use std::marker::Model;
use std::sync::{Mutex, Wait};
use ti_scan::CountStore;

/// A worker's number, counted from 0, and its pass.
#[derive(Drop)]
pub struct Helper<N: Naming, T: Site> {
    pub number: u32,
    pub pass: Reader<N, T>,
}

/// The plan of a level with its cells, which workers read without a lock, and its bench, which they
/// use one after another. Contracts see it as the plan.
#[derive(Drop)]
pub struct Sim<'a, N: Naming, T: Site> {
    plan: &'a LevelPlan<'a>,
    around: Surroundings<'a>,
    grid: SharedGrid<N, T>,
    bench: Mutex<Bench<N, T>>,
}

impl<'a, N: Naming, T: Site> Model for Sim<'a, N, T> {
    ghost use Rattle.std.specs.Prelude.{◌≡◌};
    ghost use Rattle.event_retrieve.specs.Plan.{Plan};
    ghost use Rattle.event_retrieve.specs.Sequential.{sequential};
    ghost use Rattle.spec_run.specs.Told.{IsAround};

    ghost Value = { Plan };

    ghost view = { λ s. s.plan.now };

    ghost invariant = { λ s. (s.plan.now ≡ N.plan) × (N.story ≡ sequential N.plan) × IsAround s.plan.now s.around };
}

impl<'a, N: Naming, T: Site> Sim<'a, N, T> {
    /// The simulation of a level, and one helper for each worker. With the cells that were made
    /// before, this takes all memory of the level's run. The name is of this plan and window, and its
    /// story is the plan's sequential log; the cells and their writer are of the words that the site
    /// names.
    pub fn make(
        alloc: Global,
        plan: &'a LevelPlan<'a>,
        cells: Cells<N>,
        writer: CellsWriter<N>,
        window: u16,
        workers: u8,
    ) -> Result<(Sim<'a, N, T>, Vec<Helper<N, T>>), NoMemory>
        requires plan { plan.now ≡ N.plan }
        requires window { (window ≡ N.window) × (1 ≤ window) × (window ≤ 256) }
        requires story { N.story ≡ sequential N.plan }
        requires cells { cells ≡ T.words }
        requires writer { writer ≡ T.words }
        requires workers { (1 ≤ workers) × (workers ≤ 64) }
        ensures plan { IfOk result (λ made. made.0 ≡ plan.now) }
        ensures count { IfOk result (λ made. length made.1.items ≡ workers) }
        ensures numbers { IfOk result (λ made. map (λ (h : _). h.number) made.1.items ≡ range_with_len 0 workers) }
    {
        let vectors = plan.eroded().template().vectors();
        let around = Surroundings::new(alloc, plan.start(), vectors)?;
        let board = Board::new(alloc, plan, window)?;
        let (grid, mut writer) = SharedGrid::<N, T>::new(cells, writer);
        let mut helpers = Vec::with_capacity(alloc, workers as usize)?;
        for number in 0..u32::from(workers) {
            let pass = grid.note(&mut writer);
            helpers.push(Helper { number, pass })?;
        }
        let sim = Sim {
            plan,
            around,
            grid,
            bench: Mutex::new(Bench::new(board, writer)),
        };
        Ok((sim, helpers))
    }

    /// Claims the next node, if the window has room for it. The pass has afterwards seen the front
    /// of that moment.
    pub fn claim<R: Wait>(&self, rt: &R, pass: &mut Reader<N, T>) -> Claim
        ensures later { pass.old ≤ pass.new }
        ensures tells { ClaimTells N.window (nodes_in self.now) pass.new result }
    {
        self.bench.lock(rt).claim(self.plan, &self.grid, pass)
    }

    /// Counts a node ahead of its turn, with no lock: `Late` exactly where the front that is loaded
    /// exceeds the node's index, and else an offer that has seen that front.
    pub fn speculate<S: CountStore>(
        &self,
        pass: &mut Reader<N, T>,
        ticket: &Ticket,
        store: &S,
    ) -> Spec
        requires ticket { ticket.now.index < nodes_in self.now }
        requires store { StandsFor S.gives S.reaches store.now self.now.source }
        ensures later { pass.old ≤ pass.new }
        ensures within { pass.new ≤ nodes_in self.now }
        ensures tells { SpecTells self.now ticket.now.index pass.new result }
    {
        let index = ticket.index();
        let front = self.grid.front(pass);
        if front > index {
            return Spec::Late { front };
        }
        let gather = gather_event(self.plan, &self.around, &self.grid, pass, index);
        Spec::Made(gather.into_offer(self.plan, front, store))
    }

    /// Keeps an offer, and commits and shows as long as the front has a kept offer.
    pub fn offer_and_drain<S: CountStore, R: Wait>(
        &self,
        rt: &R,
        pass: &mut Reader<N, T>,
        store: &S,
        offer: Offer,
    ) -> Keep
        requires store { StandsFor S.gives S.reaches store.now self.now.source }
        requires sound { IsSound self.now offer }
        ensures later { pass.old ≤ pass.new }
        ensures tells { KeepTells offer.index pass.new result }
    {
        self.bench
            .lock(rt)
            .offer_and_drain(self.plan, &self.grid, pass, store, offer)
    }

    // Keeps an offer as `offer_and_drain` does, and then claims the next node, under the same lock: a
    // worker that takes it once a node and not twice is seldom waited for.
    pub(crate) fn offer_and_claim<S: CountStore, R: Wait>(
        &self,
        rt: &R,
        pass: &mut Reader<N, T>,
        store: &S,
        offer: Offer,
    ) -> Claim
        requires store { StandsFor S.gives S.reaches store.now self.now.source }
        requires sound { IsSound self.now offer }
        ensures later { pass.old ≤ pass.new }
        ensures tells { ClaimTells N.window (nodes_in self.now) pass.new result }
    {
        let mut bench = self.bench.lock(rt);
        bench.offer_and_drain(self.plan, &self.grid, pass, store, offer);
        bench.claim(self.plan, &self.grid, pass)
    }

    /// Takes an offer of the front that is sound, whoever made it, and refuses any other. The pass has
    /// afterwards seen the front by which it was judged.
    pub fn offer_foreign<S: CountStore, R: Wait>(
        &self,
        rt: &R,
        pass: &mut Reader<N, T>,
        store: &S,
        offer: Offer,
    ) -> Foreign
        requires store { StandsFor S.gives S.reaches store.now self.now.source }
        ensures later { pass.old ≤ pass.new }
        ensures tells { ForeignTells self.now offer pass.new result }
    {
        self.bench
            .lock(rt)
            .offer_foreign(self.plan, &self.grid, pass, store, offer)
    }

    /// Commits the front's node and shows it, unless the path is at its end.
    pub fn push_front<S: CountStore, R: Wait>(
        &self,
        rt: &R,
        pass: &mut Reader<N, T>,
        store: &S,
    ) -> Pushed
        requires store { StandsFor S.gives S.reaches store.now self.now.source }
        ensures later { pass.old ≤ pass.new }
        ensures tells { PushTells (nodes_in self.now) pass.new result }
    {
        self.bench
            .lock(rt)
            .push_front(self.plan, &self.grid, pass, store)
    }

    /// The whole log, once a pass has seen the end of the path.
    pub fn finish<S: CountStore>(self, store: &S, pass: &Reader<N, T>) -> Vec<Entry>
        requires store { StandsFor S.gives S.reaches store.now self.source }
        requires seen { nodes_in self ≤ pass.now }
        ensures log { result.items ≡ sequential self.entry }
        ensures cats { All (λ (e : AnEntry). e.cat < self.entry.source.cats) result.items }
    {
        let Sim {
            plan,
            around: _,
            grid: _,
            bench,
        } = self;
        bench.into_inner().finish(plan, store)
    }
}
