// The board of a level.
ghost use Rattle.std.specs.Prelude.{◌≡◌, ◌+◌, ◌-◌, ◌<◌, ◌≤◌, ◌^◌, [], All, IfOk, None, length, max, option_copied, replicate, slice_index};
ghost use Rattle.mp_base.specs.declared.cell.Entry.{Entry};
ghost use Rattle.ti_scan.specs.Event.{StandsFor};
ghost use Rattle.event_retrieve.specs.Plan.{Plan, IsPlan};
ghost use Rattle.event_retrieve.specs.Sequential.{sequential};
ghost use Rattle.event_retrieve.specs.Offer.{IsSound, IsRetained, event_of_turn, stale_by};
ghost use Rattle.commit_board.specs.Board.{Fits, IsBoard, claim_of, after_claim, keep_of, after_keep, settle_of, after_settle, with_entry, IfCommitted, IsNextEntry, with_front, offer_in, settle_at, entry_by, front_offer as offer_of_front};

use crate::claim::{Claim, Ticket};
use crate::keep::Keep;
use crate::settle::Settle;
use crate::word::WordsAhead;
use event_retrieve::{LevelPlan, Offer, Retained, known_event, pick_with, retain};
use mp_base::{Counts, Entry, NoMemory};
use std::alloc::Global;
use std::collections::VecDeque;
use std::marker::Model;
use ti_scan::{CountStore, Event};

/// How far the path of a level was claimed, the offers that are kept, at most one for each node,
/// and the log, whose length is the front: the index of the node that is committed next.
#[derive(Drop)]
pub struct Board {
    nodes: u32,
    window: u16,
    next: u32,
    log: Vec<Entry>,
    known: Counts,
    // First that of the front, then those of the nodes after it. The queue goes round in its memory,
    // so that a commit moves no offer.
    slots: VecDeque<Option<Offer>>,
    // From that of the front's draw on.
    words: WordsAhead,
}

impl Model for Board {
    ghost use Rattle.std.specs.Prelude.{◌≤◌, vec_capacity};
    ghost use Rattle.commit_board.specs.Board.{State, state, IsBoard};

    ghost Value = { State };

    ghost view = { λ b. state b.nodes b.window b.next b.log.items b.known b.slots.items b.words };

    ghost invariant = { λ b. IsBoard (state b.nodes b.window b.next b.log.items b.known b.slots.items b.words) × (b.nodes ≤ vec_capacity b.log) };
}

impl Board {
    /// A board of a plan, with nothing claimed. At most `window` nodes are claimed ahead of the
    /// front. It takes all memory that the board ever needs.
    pub fn new(alloc: Global, plan: &LevelPlan<'_>, window: u16) -> Result<Board, NoMemory>
        requires window { (1 ≤ window) × (window ≤ 256) }
        ensures fits { IfOk result (λ b. Fits plan.now b) }
        ensures board { IfOk result (λ b. IsBoard b) }
        ensures window { IfOk result (λ b. b.window ≡ window) }
        ensures next { IfOk result (λ b. b.next ≡ 0) }
        ensures log { IfOk result (λ b. b.log ≡ []) }
        ensures slots { IfOk result (λ b. b.slots ≡ replicate window None) }
    {
        let nodes = plan.length();
        let log = Vec::with_capacity(alloc, nodes as usize)?;
        let mut slots = VecDeque::with_capacity(alloc, window as usize)?;
        for _ in 0..window {
            slots.push_back(None)?;
        }
        Ok(Board {
            nodes,
            window,
            next: 0,
            log,
            known: plan.start_counts(),
            slots,
            words: WordsAhead::new(plan.draw_words()),
        })
    }

    /// Claims the next node, if the window has room for it.
    pub fn claim(&mut self) -> Claim
        ensures answer { result ≡ claim_of self.old }
        ensures board { self.new ≡ after_claim self.old result }
        ensures fits { (p : Plan) → Fits p self.old → Fits p self.new }
    {
        let front = self.front();
        if self.next == self.nodes {
            return Claim::AllClaimed { length: self.nodes };
        }
        if self.next - front == u32::from(self.window) {
            return Claim::Full {
                next: self.next,
                front,
            };
        }
        let index = self.next;
        self.next += 1;
        Claim::Ticket(Ticket::new(index))
    }

    /// Keeps an offer of a claimed node that has none yet. An offer that is not kept is dropped.
    pub fn keep(&mut self, offer: Offer) -> Keep
        ensures answer { result ≡ keep_of self.old offer }
        ensures board { self.new ≡ after_keep self.old offer result }
        ensures fits { (p : Plan) → Fits p self.old → IsSound p offer → Fits p self.new }
    {
        let front = self.front();
        let index = offer.index;
        if index < front {
            return Keep::Late { front };
        }
        if index >= self.next {
            return Keep::Unclaimed {
                index,
                next: self.next,
            };
        }
        let slot = (index - front) as usize;
        if self.slots[slot].is_some() {
            return Keep::Held { index };
        }
        self.slots[slot] = Some(offer);
        Keep::Kept
    }

    /// Commits the front's entry by its kept offer, unless that is stale.
    pub fn settle(&mut self, plan: &LevelPlan<'_>) -> Settle
        requires fits { Fits plan.now self.old }
        ensures answer { result ≡ settle_of plan.now self.old }
        ensures board { self.new ≡ after_settle self.old result }
        ensures entry { IfCommitted result (λ e. IsNextEntry plan.now self.old e) }
        ensures fits { Fits plan.now self.new }
    {
        match self.judge(plan) {
            Settle::Committed(entry) => {
                self.commit(&entry);
                Settle::Committed(entry)
            }
            other => other,
        }
    }

    // What settling the front is answered.
    fn judge(&self, plan: &LevelPlan<'_>) -> Settle
        requires fits { Fits plan.now self.now }
        ensures answer { result ≡ settle_of plan.now self.now }
        ensures below { IfCommitted result (λ e. e.cat < plan.now.source.cats) }
        ensures plan { IsPlan plan.now }
        ensures board { IsBoard self.now }
    {
        prove!(self.nodes == plan.length());
        let front = self.front();
        if front == self.nodes {
            return Settle::Ended { length: self.nodes };
        }
        match self.front_offer() {
            Some(offer) => self.judge_offer(plan, offer),
            None => Settle::NotOffered { front },
        }
    }

    // The kept offer of the front, if there is one.
    fn front_offer(&self) -> Option<&Offer>
        ensures { option_copied result ≡ offer_in self.now.slots 0 }
    {
        match &self.slots[0] {
            Some(offer) => Some(offer),
            None => None,
        }
    }

    // What settling the front is answered by its offer.
    fn judge_offer(&self, plan: &LevelPlan<'_>, offer: &Offer) -> Settle
        requires fits { Fits plan.now self.now }
        requires left { length self.now.log < self.now.nodes }
        requires sound { IsSound plan.now offer.now }
        ensures answer { result ≡ settle_at plan.now self.now offer.now (stale_by plan.now offer.now) }
        ensures below { IfCommitted result (λ e. e.cat < plan.now.source.cats) }
    {
        match offer.stale_by(plan) {
            Some(missed) => Settle::Stale {
                front: self.front(),
                entry: missed.entry,
                position: missed.position,
            },
            None => Settle::Committed(self.entry_by(plan, offer)),
        }
    }

    // The entry of the front by what an offer retains, by the shares of now and by the front's word.
    fn entry_by(&self, plan: &LevelPlan<'_>, offer: &Offer) -> Entry
        requires fits { Fits plan.now self.now }
        requires left { length self.now.log < self.now.nodes }
        requires sound { IsSound plan.now offer.now }
        ensures entry { result ≡ entry_by plan.now self.now offer.now }
        ensures below { result.cat < plan.now.source.cats }
    {
        let _ = plan.length();
        let word = self.words.next();
        Entry {
            cell: plan.cell_of(self.front()),
            cat: pick_with(plan, word, &offer.retained.counts, &self.known),
        }
    }

    // Appends an entry, and drops the front's offer.
    fn commit(&mut self, entry: &Entry)
        requires left { length self.old.log < self.old.nodes }
        requires cat { entry.now.cat < length self.old.known }
        requires few { slice_index self.old.known entry.now.cat < 2 ^ 32 - 1 }
        requires words { self.old.words.place + 1 < 2 ^ 32 }
        ensures { self.new ≡ with_entry self.old entry.now }
    {
        let front = self.front();
        self.slots[0] = None;
        self.slots.rotate_left(1);
        self.log.push_reserved(Entry {
            cell: entry.cell,
            cat: entry.cat,
        });
        self.known.add_one(entry.cat);
        self.words.advance();
        self.next = next_after(self.next, front);
    }

    /// Puts an offer that sees all entries in the front's place, and answers what it retains.
    pub fn recount<S: CountStore>(&mut self, plan: &LevelPlan<'_>, store: &S) -> Retained
        requires fits { Fits plan.now self.old }
        requires left { length self.old.log < self.old.nodes }
        requires store { StandsFor S.gives S.reaches store.now plan.now.source }
        ensures retained { IsRetained plan.now (event_of_turn plan.now (length self.old.log)) result }
        ensures board { self.new ≡ with_front self.old (offer_of_front plan.now self.old result) }
        ensures fits { Fits plan.now self.new }
    {
        let front = self.front();
        let event = known_event(plan, front, self.log.as_slice());
        let retained = retain(plan, &event, store);
        let answer = retained.copy();
        self.slots[0] = Some(offer_at(front, event, retained));
        answer
    }

    /// The entries so far.
    pub fn log(&self) -> &[Entry]
        ensures log { result.now ≡ self.now.log }
        ensures board { IsBoard self.now }
    {
        self.log.as_slice()
    }

    /// The index of the node that is committed next.
    pub fn front(&self) -> u32
        ensures { result ≡ length self.now.log }
    {
        self.log.len() as u32
    }

    /// The index of the node that is claimed next.
    pub fn next(&self) -> u32
        ensures { result ≡ self.now.next }
    {
        self.next
    }

    /// How many nodes the path has.
    pub fn length(&self) -> u32
        ensures { result ≡ self.now.nodes }
    {
        self.nodes
    }

    /// The log.
    pub fn into_log(self) -> Vec<Entry>
        ensures { result.items ≡ self.log }
    {
        self.log
    }

    /// Commits what is left, each node by counting it again, and gives the log: the sequential log,
    /// whatever was offered before.
    pub fn finish<S: CountStore>(self, plan: &LevelPlan<'_>, store: &S) -> Vec<Entry>
        requires fits { Fits plan.now self }
        requires store { StandsFor S.gives S.reaches store.now plan.now.source }
        ensures log { result.items ≡ sequential plan.now }
        ensures cats { All (λ (e : Entry). e.cat < plan.now.source.cats) result.items }
    {
        let mut board = self;
        let _ = (plan.length(), board.log().len());
        while board.front() < board.length() {
            commit_next(&mut board, plan, store);
        }
        board.into_log()
    }
}

// Commits the front by counting it again.
fn commit_next<S: CountStore>(board: &mut Board, plan: &LevelPlan<'_>, store: &S)
    requires fits { Fits plan.now board.old }
    requires left { length board.old.log < board.old.nodes }
    requires store { StandsFor S.gives S.reaches store.now plan.now.source }
    ensures fits { Fits plan.now board.new }
    ensures one { length board.new.log ≡ length board.old.log + 1 }
{
    let _ = board.log().len();
    board.recount(plan, store);
    board.settle(plan);
}

// The first node that isn't claimed once the front is committed: the front may not have been.
fn next_after(next: u32, front: u32) -> u32
    requires { front + 1 < 2 ^ 32 }
    ensures { result ≡ max next (front + 1) }
{
    next.max(front + 1)
}

// The offer of a node by all entries before its own.
fn offer_at(index: u32, event: Event, retained: Retained) -> Offer
    ensures { result ≡ record { index = index; seen = index; event = event; retained = retained } }
{
    Offer {
        index,
        seen: index,
        event,
        retained,
    }
}
