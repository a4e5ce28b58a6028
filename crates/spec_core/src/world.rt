// The machine.
ghost use Rattle.std.specs.Prelude.{◌≡◌, suc, ◌<◌, ◌≤◌, All, None, IfOk, IfSome, length};
ghost use Rattle.mp_base.specs.Grid.{IsBelow};
ghost use Rattle.ti_scan.specs.Event.{StandsFor};
ghost use Rattle.event_retrieve.specs.Offer.{IsSound};
ghost use Rattle.event_retrieve.specs.Plan.{Plan};
ghost use Rattle.event_retrieve.specs.Sequential.{log_of, sequential};
ghost use Rattle.commit_board.specs.Board.{Fits, IsBoard};
ghost use Rattle.spec_steps.specs.Answers.{category_in};
ghost use Rattle.spec_steps.specs.declared.step.Step.TheVariants as the_step;
ghost use Rattle.spec_core.specs.Worker.{offer_in, worker_offered};
ghost use Rattle.spec_core.specs.World.{after, answer_of, board_claimed, board_offered, claim_answer, first_machine, offer_answer, worker_claimed, worker_of, FitsPlan};

use crate::worker::Worker;
use commit_board::Board;
use event_retrieve::LevelPlan;
use mp_base::{Entry, NoMemory};
use spec_steps::{Answer, Step};
use std::alloc::Global;
use std::marker::Model;
use ti_scan::CountStore;

/// The board of a level, the front that workers see, and what each worker does.
#[derive(Drop)]
pub struct World {
    board: Board,
    shown: u32,
    workers: Vec<Worker>,
}

impl Model for World {
    ghost use Rattle.spec_core.specs.World.{Machine, machine};

    ghost Value = { Machine };

    ghost view = { λ w. machine w.board w.shown w.workers.items };
}

impl World {
    /// The world before the first step: so many workers, all of them idle, and at most `window` nodes
    /// claimed ahead of the front. It takes all memory that the world ever needs.
    pub fn new(
        alloc: Global,
        plan: &LevelPlan<'_>,
        workers: u8,
        window: u16,
    ) -> Result<World, NoMemory>
        requires workers { (1 ≤ workers) × (workers ≤ 64) }
        requires window { (1 ≤ window) × (window ≤ 256) }
        ensures first { IfOk result (λ w. w ≡ first_machine plan.now workers window) }
        ensures fits { IfOk result (λ w. FitsPlan plan.now w) }
    {
        let board = Board::new(alloc, plan, window)?;
        let mut idle = Vec::with_capacity(alloc, workers as usize)?;
        for _ in 0..workers {
            idle.push(Worker::Idle)?;
        }
        Ok(World {
            board,
            shown: 0,
            workers: idle,
        })
    }

    /// Takes a step, where that can be taken, and answers it. Whatever steps are taken, the log stays a
    /// front of the sequential log.
    pub fn step<S: CountStore>(&mut self, plan: &LevelPlan<'_>, store: &S, step: Step) -> Answer
        requires fits { FitsPlan plan.now self.old }
        requires store { StandsFor S.gives S.reaches store.now plan.now.source }
        ensures answer { result ≡ answer_of plan.now self.old step }
        ensures world { self.new ≡ after plan.now self.old step }
        ensures fits { FitsPlan plan.now self.new }
        ensures named { IsBelow plan.now.source.cats (category_in result) }
    {
        let _ = (plan.length(), self.board.log().len());
        self.take(plan, store, step)
    }

    // Takes a step.
    fn take<S: CountStore>(&mut self, plan: &LevelPlan<'_>, store: &S, step: Step) -> Answer
        requires fits { FitsPlan plan.now self.old }
        requires board { IsBoard self.old.board }
        requires store { StandsFor S.gives S.reaches store.now plan.now.source }
        ensures answer { result ≡ answer_of plan.now self.old step }
        ensures world { self.new ≡ after plan.now self.old step }
        ensures board { Fits plan.now self.new.board }
    {
        match step {
            Step::Claim(worker) => self.claim(plan, worker),
            Step::Front(worker) => self.read_front(plan, worker),
            Step::Look(worker) => self.look(plan, worker),
            Step::Count(worker) => self.count(plan, store, worker),
            Step::Offer(worker) => self.offer(plan, worker),
            Step::Settle => self.settle(plan),
            Step::Force => self.force(plan, store),
            Step::Show => self.show(plan),
        }
    }

    // Where the worker of a number stands, if there is one.
    fn place_of(&self, number: u8) -> Option<usize>
        ensures none { result ≡ None → worker_of self.now number ≡ None }
        ensures some { IfSome result (λ place. (place < length self.now.workers) × (number ≡ suc place)) }
    {
        if number == 0 || number as usize > self.workers.len() {
            return None;
        }
        Some(number as usize - 1)
    }

    fn claim(&mut self, plan: &LevelPlan<'_>, number: u8) -> Answer
        requires fits { FitsPlan plan.now self.old }
        ensures answer { result ≡ answer_of plan.now self.old (the_step.Claim number) }
        ensures world { self.new ≡ after plan.now self.old (the_step.Claim number) }
        ensures board { Fits plan.now self.new.board }
    {
        match self.place_of(number) {
            Some(place) => claim_for(&mut self.board, &mut self.workers[place]),
            None => Answer::Skip,
        }
    }

    fn read_front(&mut self, plan: &LevelPlan<'_>, number: u8) -> Answer
        requires fits { FitsPlan plan.now self.old }
        ensures answer { result ≡ answer_of plan.now self.old (the_step.Front number) }
        ensures world { self.new ≡ after plan.now self.old (the_step.Front number) }
        ensures board { Fits plan.now self.new.board }
    {
        match self.place_of(number) {
            Some(place) => self.workers[place].front(self.shown),
            None => Answer::Skip,
        }
    }

    fn look(&mut self, plan: &LevelPlan<'_>, number: u8) -> Answer
        requires fits { FitsPlan plan.now self.old }
        requires board { IsBoard self.old.board }
        ensures answer { result ≡ answer_of plan.now self.old (the_step.Look number) }
        ensures world { self.new ≡ after plan.now self.old (the_step.Look number) }
        ensures board { Fits plan.now self.new.board }
    {
        match self.place_of(number) {
            Some(place) => self.workers[place].look(plan, self.board.log()),
            None => Answer::Skip,
        }
    }

    fn count<S: CountStore>(&mut self, plan: &LevelPlan<'_>, store: &S, number: u8) -> Answer
        requires fits { FitsPlan plan.now self.old }
        requires board { IsBoard self.old.board }
        requires store { StandsFor S.gives S.reaches store.now plan.now.source }
        ensures answer { result ≡ answer_of plan.now self.old (the_step.Count number) }
        ensures world { self.new ≡ after plan.now self.old (the_step.Count number) }
        ensures board { Fits plan.now self.new.board }
    {
        match self.place_of(number) {
            Some(place) => self.workers[place].count(plan, store),
            None => Answer::Skip,
        }
    }

    fn offer(&mut self, plan: &LevelPlan<'_>, number: u8) -> Answer
        requires fits { FitsPlan plan.now self.old }
        ensures answer { result ≡ answer_of plan.now self.old (the_step.Offer number) }
        ensures world { self.new ≡ after plan.now self.old (the_step.Offer number) }
        ensures board { Fits plan.now self.new.board }
    {
        match self.place_of(number) {
            Some(place) => offer_of(&mut self.board, &mut self.workers[place]),
            None => Answer::Skip,
        }
    }

    fn settle(&mut self, plan: &LevelPlan<'_>) -> Answer
        requires fits { FitsPlan plan.now self.old }
        ensures answer { result ≡ answer_of plan.now self.old the_step.Settle }
        ensures world { self.new ≡ after plan.now self.old the_step.Settle }
        ensures board { Fits plan.now self.new.board }
    {
        if self.shown != self.board.front() {
            return Answer::Skip;
        }
        Answer::Settled(self.board.settle(plan))
    }

    fn force<S: CountStore>(&mut self, plan: &LevelPlan<'_>, store: &S) -> Answer
        requires fits { FitsPlan plan.now self.old }
        requires store { StandsFor S.gives S.reaches store.now plan.now.source }
        ensures answer { result ≡ answer_of plan.now self.old the_step.Force }
        ensures world { self.new ≡ after plan.now self.old the_step.Force }
        ensures board { Fits plan.now self.new.board }
    {
        let index = self.board.front();
        if self.shown != index || index >= self.board.length() {
            return Answer::Skip;
        }
        let retained = self.board.recount(plan, store);
        Answer::Recounted { index, retained }
    }

    fn show(&mut self, plan: &LevelPlan<'_>) -> Answer
        requires fits { FitsPlan plan.now self.old }
        ensures answer { result ≡ answer_of plan.now self.old the_step.Show }
        ensures world { self.new ≡ after plan.now self.old the_step.Show }
        ensures board { Fits plan.now self.new.board }
    {
        let front = self.board.front();
        if self.shown >= front {
            return Answer::Skip;
        }
        self.shown = front;
        Answer::Shown { front }
    }

    /// The entries so far.
    pub fn log(&self) -> &[Entry]
        ensures log { result.now ≡ self.now.board.log }
        ensures front { (p : Plan) → FitsPlan p self.now → result.now ≡ log_of p (length result.now) }
    {
        self.board.log()
    }

    /// How many entries there are so far.
    pub fn front(&self) -> u32
        ensures { result ≡ length self.now.board.log }
    {
        self.board.front()
    }

    /// Commits what is left, each node by counting it again: the sequential log, whatever steps were
    /// taken before.
    pub fn finish<S: CountStore>(self, plan: &LevelPlan<'_>, store: &S) -> Vec<Entry>
        requires fits { FitsPlan plan.now self }
        requires store { StandsFor S.gives S.reaches store.now plan.now.source }
        ensures log { result.items ≡ sequential plan.now }
        ensures cats { All (λ e. e.cat < plan.now.source.cats) result.items }
    {
        self.board.finish(plan, store)
    }
}

// What an idle worker is answered when it claims, and the board and the worker then.
fn claim_for(board: &mut Board, worker: &mut Worker) -> Answer
    ensures answer { result ≡ claim_answer board.old worker.old }
    ensures board { board.new ≡ board_claimed board.old worker.old }
    ensures worker { worker.new ≡ worker_claimed board.old worker.old }
    ensures fits { (p : Plan) → Fits p board.old → Fits p board.new }
{
    if !worker.is_idle() {
        return Answer::Skip;
    }
    let claim = board.claim();
    *worker = Worker::after_claim(&claim);
    Answer::Claimed(claim)
}

// What a worker that has counted is answered when it offers that, and the board and the worker then.
fn offer_of(board: &mut Board, worker: &mut Worker) -> Answer
    ensures answer { result ≡ offer_answer board.old worker.old }
    ensures board { board.new ≡ board_offered board.old worker.old }
    ensures worker { worker.new ≡ worker_offered worker.old }
    ensures fits { (p : Plan) → Fits p board.old → IfSome (offer_in worker.old) (IsSound p) → Fits p board.new }
{
    let Some(offer) = worker.take_offer() else {
        return Answer::Skip;
    };
    let index = offer.index;
    let keep = board.keep(offer);
    Answer::Offered { index, keep }
}
