// What one worker does.
ghost use Rattle.std.specs.Prelude.{◌≡◌, ◌<◌, length};
ghost use Rattle.ti_scan.specs.Event.{StandsFor};
ghost use Rattle.event_retrieve.specs.Plan.{IsFront};
ghost use Rattle.event_retrieve.specs.Gather.{wanted_of};
ghost use Rattle.spec_core.specs.Worker.{after_count, after_front, after_look, claimed_by, count_answer, front_answer, gathered, has_looked, is_idle as idle, look_answer, look_at, offer_in, read_answer as read_answer_of, worker_offered, IsReady};

use commit_board::Claim;
use event_retrieve::{Gather, LevelPlan, Offer, Wanted, cat_after};
use mp_base::{Cat, Entry};
use spec_steps::Answer;
use std::mem;
use ti_scan::CountStore;

/// What a worker does.
#[derive(Drop)]
pub enum Worker {
    /// Nothing.
    Idle,
    /// It has claimed a path node, and looked at nothing.
    Claimed { index: u32 },
    /// It looks at the cells around its node. So many entries were shown when it began.
    Looking { seen: u32, gather: Gather },
    /// It has counted the replicates of what it saw, and offered nothing.
    Counted { offer: Offer },
}

impl Worker {
    /// Whether it does nothing.
    pub fn is_idle(&self) -> bool
        ensures { result ≡ idle self.now }
    {
        matches!(self, Worker::Idle)
    }

    /// What an idle worker does after a claim that was answered so.
    pub fn after_claim(claim: &Claim) -> Worker
        ensures { result ≡ claimed_by claim.now }
    {
        match claim {
            Claim::Ticket(ticket) => Worker::Claimed {
                index: ticket.index(),
            },
            _ => Worker::Idle,
        }
    }

    /// The offer of a worker that has counted, which is idle then.
    pub fn take_offer(&mut self) -> Option<Offer>
        ensures offer { result ≡ offer_in self.old }
        ensures worker { self.new ≡ worker_offered self.old }
    {
        match mem::replace(self, Worker::Idle) {
            Worker::Counted { offer } => Some(offer),
            other => {
                *self = other;
                None
            }
        }
    }

    /// Reads the front that is shown, where a node was claimed.
    pub fn front(&mut self, shown: u32) -> Answer
        ensures answer { result ≡ front_answer shown self.old }
        ensures worker { self.new ≡ after_front shown self.old }
    {
        let Worker::Claimed { index } = self else {
            return Answer::Skip;
        };
        let index = *index;
        if index < shown {
            *self = Worker::Idle;
            return Answer::Late { front: shown };
        }
        *self = Worker::Looking {
            seen: shown,
            gather: Gather::new(index),
        };
        Answer::Seen { front: shown }
    }

    /// Reads the cell at the next template position once the log's entries are set, where the worker
    /// looks and has positions left.
    pub fn look(&mut self, plan: &LevelPlan<'_>, log: &[Entry]) -> Answer
        requires ready { IsReady plan.now self.old }
        requires log { IsFront plan.now log.now }
        ensures answer { result ≡ look_answer plan.now log.now self.old }
        ensures worker { self.new ≡ after_look plan.now log.now self.old }
    {
        let Worker::Looking { gather, .. } = self else {
            return Answer::Skip;
        };
        look_on(gather, plan, log)
    }

    /// Counts what was seen, where the worker has looked at all positions.
    pub fn count<S: CountStore>(&mut self, plan: &LevelPlan<'_>, store: &S) -> Answer
        requires ready { IsReady plan.now self.old }
        requires store { StandsFor S.gives S.reaches store.now plan.now.source }
        ensures answer { result ≡ count_answer plan.now self.old }
        ensures worker { self.new ≡ after_count plan.now self.old }
    {
        if !self.has_looked(plan) {
            return Answer::Skip;
        }
        match mem::replace(self, Worker::Idle) {
            Worker::Looking { seen, gather } => {
                let offer = gather.into_offer(plan, seen, store);
                let retained = offer.retained.copy();
                *self = Worker::Counted { offer };
                Answer::Counted(retained)
            }
            _ => unreachable!(),
        }
    }

    // Whether the worker looks, and has looked at all positions.
    fn has_looked(&self, plan: &LevelPlan<'_>) -> bool
        requires ready { IsReady plan.now self.now }
        ensures { result ≡ has_looked plan.now self.now }
    {
        match self {
            Worker::Looking { gather, .. } => matches!(gather.wanted(plan), Wanted::Done),
            _ => false,
        }
    }
}

// Reads what is wanted at the next position, if anything is.
fn look_on(gather: &mut Gather, plan: &LevelPlan<'_>, log: &[Entry]) -> Answer
    requires index { gather.old.index < length plan.now.path }
    requires log { IsFront plan.now log.now }
    ensures answer { result ≡ look_at plan.now log.now (wanted_of plan.now gather.old) }
    ensures gather { gather.new ≡ gathered plan.now log.now gather.old (wanted_of plan.now gather.old) }
{
    match gather.wanted(plan) {
        Wanted::Done => Answer::Skip,
        Wanted::Outside { position } | Wanted::Later { position } => {
            gather.put(plan, None);
            Answer::Unknown { position }
        }
        Wanted::Cell { position, cell } => {
            let value = cat_after(plan, log, cell);
            let answer = read_answer(position, &value);
            gather.put(plan, value);
            answer
        }
    }
}

// What is read at a position.
fn read_answer(position: u8, value: &Option<Cat>) -> Answer
    ensures { result ≡ read_answer_of position value.now }
{
    match value {
        Some(cat) => Answer::Known {
            position,
            cat: *cat,
        },
        None => Answer::Unknown { position },
    }
}
