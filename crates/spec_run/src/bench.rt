// What lies under the lock.
ghost use Rattle.std.specs.Prelude.{◌≡◌, ◌+◌, ◌<◌, ◌≤◌, false, if◌then◌else◌, [], All};
ghost use Rattle.mp_base.specs.declared.cell.Entry.{Entry};
ghost use Rattle.ti_scan.specs.Event.{StandsFor};
ghost use Rattle.event_retrieve.specs.Offer.{IsSound};
ghost use Rattle.event_retrieve.specs.Plan.{nodes_in};
ghost use Rattle.event_retrieve.specs.Sequential.{sequential};
ghost use Rattle.commit_board.specs.Board.{Fits, IsBoard, after_claim, claim_of, front, keep_of, settle_of};
ghost use Rattle.spec_run.specs.Bench.{after_foreign, after_offer, after_push, counted_again, drained, foreign_of, is_offered, pushed_of, settled, with_front_committed};
ghost use Rattle.spec_run.specs.Told.{ClaimTells, ForeignTells, KeepTells, PushTells};

use commit_board::{Board, Claim, Keep, OfferFault, Settle};
use event_retrieve::{LevelPlan, Offer};
use mp_base::Entry;
use shared_grid::{Naming, Reader, SharedGrid, Site, Writer};
use std::marker::Model;
use ti_scan::CountStore;

/// The board and the writer of the cells: what is committed is shown at once. Contracts see it as
/// the board.
#[derive(Drop)]
pub struct Bench<N: Naming, T: Site> {
    board: Board,
    writer: Writer<N, T>,
}

impl<N: Naming, T: Site> Model for Bench<N, T> {
    ghost use Rattle.commit_board.specs.Board.{State};
    ghost use Rattle.spec_run.specs.Bench.{IsBench};

    ghost Value = { State };

    ghost view = { λ b. b.board };

    ghost invariant = { λ b. IsBench N.plan N.window N.story b.board b.writer };
}

/// What an offer of a stranger is answered.
#[derive(Drop)]
pub enum Foreign {
    /// It isn't of the front, or it isn't sound. Nothing is kept.
    Refused(OfferFault),
    /// What the same offer of a worker is answered.
    Taken(Keep),
}

/// What pushing the front is answered.
#[derive(Clone, Copy, Debug, PartialEq, Eq)]
pub enum Pushed {
    /// The front's node is committed. This is the front after it.
    Front { front: u32 },
    /// Nothing: the whole path is committed.
    Ended { length: u32 },
}

impl<N: Naming, T: Site> Bench<N, T> {
    /// A board on which nothing is committed, with the writer of cells that show nothing yet.
    pub fn new(board: Board, writer: Writer<N, T>) -> Bench<N, T>
        requires story { N.story ≡ sequential N.plan }
        requires fits { Fits N.plan board }
        requires window { board.window ≡ N.window }
        requires empty { board.log ≡ [] }
        requires writer { writer ≡ record { stored = 0; front = 0 } }
        ensures board { result ≡ board }
    {
        Bench { board, writer }
    }

    /// Claims the next node, if the window has room for it.
    pub fn claim(
        &mut self,
        plan: &LevelPlan<'_>,
        grid: &SharedGrid<N, T>,
        pass: &mut Reader<N, T>,
    ) -> Claim
        requires plan { plan.now ≡ N.plan }
        ensures answer { result ≡ claim_of self.old }
        ensures board { self.new ≡ after_claim self.old result }
        ensures later { pass.old ≤ pass.new }
        ensures seen { front self.new ≤ pass.new }
        ensures tells { ClaimTells N.window (nodes_in plan.now) pass.new result }
    {
        let _ = self.board.log().len();
        let claim = self.board.claim();
        self.show_to(grid, pass);
        claim
    }

    /// Keeps an offer of a claimed node that has none yet. Then, whatever that was answered, commits
    /// and shows as long as the front has a kept offer; a stale one is counted again first.
    pub fn offer_and_drain<S: CountStore>(
        &mut self,
        plan: &LevelPlan<'_>,
        grid: &SharedGrid<N, T>,
        pass: &mut Reader<N, T>,
        store: &S,
        offer: Offer,
    ) -> Keep
        requires plan { plan.now ≡ N.plan }
        requires store { StandsFor S.gives S.reaches store.now plan.now.source }
        requires sound { IsSound plan.now offer }
        ensures answer { result ≡ keep_of self.old offer }
        ensures board { self.new ≡ after_offer plan.now self.old offer }
        ensures done { is_offered self.new ≡ false }
        ensures later { pass.old ≤ pass.new }
        ensures seen { front self.new ≤ pass.new }
        ensures tells { KeepTells offer.index pass.new result }
    {
        let keep = self.board.keep(offer);
        self.drain(plan, grid, store);
        self.show_to(grid, pass);
        keep
    }

    /// Vets an offer, whoever made it. One of the front that is sound is then treated as an offer of
    /// a worker; any other is refused, and leaves the board as it was.
    pub fn offer_foreign<S: CountStore>(
        &mut self,
        plan: &LevelPlan<'_>,
        grid: &SharedGrid<N, T>,
        pass: &mut Reader<N, T>,
        store: &S,
        offer: Offer,
    ) -> Foreign
        requires plan { plan.now ≡ N.plan }
        requires store { StandsFor S.gives S.reaches store.now plan.now.source }
        ensures answer { result ≡ foreign_of plan.now self.old offer }
        ensures board { self.new ≡ after_foreign plan.now self.old offer }
        ensures later { pass.old ≤ pass.new }
        ensures seen { front self.new ≤ pass.new }
        ensures tells { ForeignTells plan.now offer pass.new result }
    {
        let _ = self.board.log().len();
        match self.board.vet(plan, store, &offer) {
            Err(fault) => {
                self.show_to(grid, pass);
                Foreign::Refused(fault)
            }
            Ok(()) => Foreign::Taken(self.offer_and_drain(plan, grid, pass, store, offer)),
        }
    }

    /// Commits the front's node and shows it: by its kept offer where that isn't stale, and else by
    /// counting it again.
    pub fn push_front<S: CountStore>(
        &mut self,
        plan: &LevelPlan<'_>,
        grid: &SharedGrid<N, T>,
        pass: &mut Reader<N, T>,
        store: &S,
    ) -> Pushed
        requires plan { plan.now ≡ N.plan }
        requires store { StandsFor S.gives S.reaches store.now plan.now.source }
        ensures answer { result ≡ pushed_of self.old }
        ensures board { self.new ≡ after_push plan.now self.old }
        ensures later { pass.old ≤ pass.new }
        ensures seen { front self.new ≤ pass.new }
        ensures tells { PushTells (nodes_in plan.now) pass.new result }
    {
        let _ = self.board.log().len();
        let pushed = self.push(plan, grid, store);
        self.show_to(grid, pass);
        pushed
    }

    /// Commits what is left of the path, and gives the log.
    pub fn finish<S: CountStore>(self, plan: &LevelPlan<'_>, store: &S) -> Vec<Entry>
        requires plan { plan.now ≡ N.plan }
        requires store { StandsFor S.gives S.reaches store.now plan.now.source }
        ensures log { result.items ≡ sequential plan.now }
        ensures cats { All (λ (e : Entry). e.cat < plan.now.source.cats) result.items }
    {
        self.board.finish(plan, store)
    }

    // The pass has afterwards seen all that is committed.
    fn show_to(&mut self, grid: &SharedGrid<N, T>, pass: &mut Reader<N, T>)
        ensures same { self.new ≡ self.old }
        ensures later { pass.old ≤ pass.new }
        ensures seen { front self.old ≤ pass.new }
    {
        grid.give_back(pass, grid.note(&mut self.writer));
    }

    // Settles the front, and shows the entry if it is committed.
    fn settle(&mut self, plan: &LevelPlan<'_>, grid: &SharedGrid<N, T>) -> Settle
        requires plan { plan.now ≡ N.plan }
        ensures whole { IsBoard self.old }
        ensures fits { Fits plan.now self.old }
        ensures answer { result ≡ settle_of plan.now self.old }
        ensures board { self.new ≡ settled plan.now self.old }
    {
        let _ = self.board.log().len();
        match self.board.settle(plan) {
            Settle::Committed(Entry { cell, cat }) => {
                grid.publish(&mut self.writer, Entry { cell, cat });
                Settle::Committed(Entry { cell, cat })
            }
            other => other,
        }
    }

    // Puts an offer that sees all entries in the front's place.
    fn count_again<S: CountStore>(&mut self, plan: &LevelPlan<'_>, store: &S)
        requires plan { plan.now ≡ N.plan }
        requires store { StandsFor S.gives S.reaches store.now plan.now.source }
        requires left { front self.old < self.old.nodes }
        ensures board { self.new ≡ counted_again plan.now self.old }
    {
        self.board.recount(plan, store);
    }

    // Counts the front again, and commits it by that.
    fn commit_again<S: CountStore>(
        &mut self,
        plan: &LevelPlan<'_>,
        grid: &SharedGrid<N, T>,
        store: &S,
    )
        requires plan { plan.now ≡ N.plan }
        requires store { StandsFor S.gives S.reaches store.now plan.now.source }
        requires left { front self.old < self.old.nodes }
        ensures board { self.new ≡ settled plan.now (counted_again plan.now self.old) }
    {
        self.count_again(plan, store);
        self.settle(plan, grid);
    }

    // Commits the front if it has a kept offer, and answers whether it had one.
    fn commit_offered<S: CountStore>(
        &mut self,
        plan: &LevelPlan<'_>,
        grid: &SharedGrid<N, T>,
        store: &S,
    ) -> bool
        requires plan { plan.now ≡ N.plan }
        requires store { StandsFor S.gives S.reaches store.now plan.now.source }
        ensures answer { result ≡ is_offered self.old }
        ensures whole { IsBoard self.old }
        ensures board { self.new ≡ if is_offered self.old then with_front_committed plan.now self.old else self.old }
    {
        match self.settle(plan, grid) {
            Settle::Committed(_) => true,
            Settle::Stale { .. } => {
                self.commit_again(plan, grid, store);
                true
            }
            Settle::NotOffered { .. } => false,
            Settle::Ended { .. } => false,
        }
    }

    // Commits and shows as long as the front has a kept offer.
    fn drain<S: CountStore>(&mut self, plan: &LevelPlan<'_>, grid: &SharedGrid<N, T>, store: &S)
        requires plan { plan.now ≡ N.plan }
        requires store { StandsFor S.gives S.reaches store.now plan.now.source }
        ensures board { self.new ≡ drained plan.now self.old }
        ensures done { is_offered self.new ≡ false }
    {
        while self.board.front() < self.board.length() {
            if !self.commit_offered(plan, grid, store) {
                return;
            }
        }
        let _ = self.board.log().len();
    }

    // Commits the front's node, unless the path is at its end.
    fn push<S: CountStore>(
        &mut self,
        plan: &LevelPlan<'_>,
        grid: &SharedGrid<N, T>,
        store: &S,
    ) -> Pushed
        requires plan { plan.now ≡ N.plan }
        requires store { StandsFor S.gives S.reaches store.now plan.now.source }
        ensures answer { result ≡ pushed_of self.old }
        ensures board { self.new ≡ after_push plan.now self.old }
    {
        let front = self.board.front();
        match self.settle(plan, grid) {
            Settle::Ended { length } => return Pushed::Ended { length },
            Settle::Committed(_) => {}
            Settle::NotOffered { .. } => self.commit_again(plan, grid, store),
            Settle::Stale { .. } => self.commit_again(plan, grid, store),
        }
        Pushed::Front { front: front + 1 }
    }
}
