// A gate for tests, which shows that workers run beside each other.
ghost use Rattle.std.specs.Prelude.{◌≡◌};
ghost use Rattle.worker_gate.specs.Parts.{part_of as part_at};

use crate::place::{Gate, Place};
use std::marker::Model;
use std::sync::atomic::AtomicBool;
use std::sync::atomic::Ordering::SeqCst;
use std::thread;

/// A gate that holds worker 0 where it has claimed its first path node, until another worker has
/// counted one ahead. Under a run that lets the workers run one after another the hold runs out of
/// turns, and `met` is false. Contracts see it as the number of turns.
#[derive(Drop)]
pub struct HoldGate {
    limit: u32,
    // Worker 0 came here before.
    came: AtomicBool,
    // Another worker has counted ahead.
    reached: AtomicBool,
    ran_out: AtomicBool,
}

impl Model for HoldGate {
    ghost use Rattle.std.specs.Prelude.{ℕ};

    ghost Value = { ℕ };

    ghost view = { λ g. g.limit };
}

// What a worker at a place is to this gate.
#[derive(Clone, Copy, Debug, PartialEq, Eq)]
pub(crate) enum Part {
    Held,
    Awaited,
    Neither,
}

impl HoldGate {
    /// A gate that holds for at most so many turns, at each of which other threads may run.
    pub fn new(limit: u32) -> HoldGate
        ensures { result ≡ limit }
    {
        HoldGate {
            limit,
            came: AtomicBool::new(false),
            reached: AtomicBool::new(false),
            ran_out: AtomicBool::new(false),
        }
    }

    /// Whether a worker other than 0 has counted ahead and no hold has run out of turns.
    pub fn met(&self) -> bool {
        self.reached.load(SeqCst) && !self.ran_out.load(SeqCst)
    }

    // Waits for the other worker, at the first call alone.
    fn hold(&self) {
        if self.came.swap(true, SeqCst) {
            return;
        }
        for _ in 0..self.limit {
            if self.reached.load(SeqCst) {
                return;
            }
            thread::yield_now();
        }
        if !self.reached.load(SeqCst) {
            self.ran_out.store(true, SeqCst);
        }
    }
}

impl Gate for HoldGate {
    fn at(&self, worker: u32, place: Place, _index: u32) {
        match part_of(worker, place) {
            Part::Held => self.hold(),
            Part::Awaited => self.reached.store(true, SeqCst),
            Part::Neither => {}
        }
    }
}

// Worker 0 is held where it has claimed, and each other is awaited where it has counted ahead.
fn part_of(worker: u32, place: Place) -> Part
    ensures { result ≡ part_at worker place }
{
    match (worker, place) {
        (0, Place::Claimed) => Part::Held,
        (0, Place::Speculated) => Part::Neither,
        (_, Place::Claimed) => Part::Neither,
        (_, Place::Speculated) => Part::Awaited,
    }
}
