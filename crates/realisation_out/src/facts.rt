// What a report tells.
ghost use Rattle.std.specs.Prelude.{◌≡◌, ◌≤◌, length};

use arrayvec::ArrayVec;
use mp_base::{Codes, Counts, Shape};
use servo_fraction::Target;
use std::marker::Model;

/// How many eroded positions each level has, the finest first.
#[derive(Drop)]
pub struct LevelPositions {
    counts: ArrayVec<u32, 8>,
}

impl Model for LevelPositions {
    ghost use Rattle.std.specs.Prelude.{ℕ, List, ◌≤◌, length};

    ghost Value = { List ℕ };

    ghost view = { λ p. p.counts.items };

    ghost invariant = { λ p. length p.counts.items ≤ 8 };
}

impl LevelPositions {
    /// The list of these numbers.
    pub fn new(counts: ArrayVec<u32, 8>) -> LevelPositions
        ensures { result ≡ counts.items }
    {
        LevelPositions { counts }
    }

    /// The numbers, by level.
    pub fn as_slice(&self) -> &[u32]
        ensures counts { result.now ≡ self.now }
        ensures few { length result.now ≤ 8 }
    {
        self.counts.as_slice()
    }

    /// The numbers as they were given.
    pub fn into_inner(self) -> ArrayVec<u32, 8>
        ensures { result.items ≡ self }
    {
        self.counts
    }
}

/// How many cells of each realisation have each category.
#[derive(Drop)]
pub struct RealisationCounts {
    counts: Vec<Counts>,
}

impl Model for RealisationCounts {
    ghost use Rattle.std.specs.Prelude.{ℕ, List};

    ghost Value = { List (List ℕ) };

    ghost view = { λ r. r.counts.items };
}

impl RealisationCounts {
    /// The list of these counts.
    pub fn new(counts: Vec<Counts>) -> RealisationCounts
        ensures { result ≡ counts.items }
    {
        RealisationCounts { counts }
    }

    /// The counts, by realisation.
    pub fn as_slice(&self) -> &[Counts]
        ensures { result.now ≡ self.now }
    {
        self.counts.as_slice()
    }

    /// The counts as they were given.
    pub fn into_inner(self) -> Vec<Counts>
        ensures { result.items ≡ self }
    {
        self.counts
    }
}
