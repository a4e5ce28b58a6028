// Parts and weights by category.
ghost use Rattle.std.specs.Prelude.{◌≡◌, ◌≤◌, ◌^◌, length};
ghost use Rattle.std.specs.List.{sum};

use arrayvec::ArrayVec;
use mp_base::Counts;
use std::marker::Model;

/// The wanted share of each category, as parts of their sum. The sum is from 1 to 2^20.
#[derive(Drop)]
pub struct Target {
    pub parts: Counts,
}

impl Model for Target {
    ghost use Rattle.std.specs.Prelude.{ℕ, List, ◌≤◌, ◌^◌};
    ghost use Rattle.std.specs.List.{sum};

    ghost Value = { List ℕ };

    ghost view = { λ t. t.parts };

    ghost invariant = { λ t. (1 ≤ sum t.parts) × (sum t.parts ≤ 2 ^ 20) };
}

impl Target {
    /// The target with these parts.
    pub fn new(parts: Counts) -> Target
        requires some { 1 ≤ sum parts }
        requires few { sum parts ≤ 2 ^ 20 }
        ensures { result ≡ parts }
    {
        Target { parts }
    }

    /// The parts, by category.
    pub fn parts(&self) -> &Counts
        ensures parts { result.now ≡ self.now }
        ensures some { 1 ≤ sum self.now }
        ensures few { sum self.now ≤ 2 ^ 20 }
    {
        &self.parts
    }

    /// The same target once more.
    pub fn copy(&self) -> Target
        ensures { result ≡ self.now }
    {
        Target::new(Counts::of(self.parts().as_slice()))
    }
}

/// A weight for each category, of at most eight categories.
#[derive(Drop)]
pub struct Weights {
    parts: ArrayVec<u128, 8>,
}

impl Model for Weights {
    ghost use Rattle.std.specs.Prelude.{ℕ, List, ◌≤◌, length};

    ghost Value = { List ℕ };

    ghost view = { λ w. w.parts.items };

    ghost invariant = { λ w. length w.parts.items ≤ 8 };
}

impl Weights {
    /// These weights, by category.
    pub fn of(parts: &[u128]) -> Weights
        requires { length parts.now ≤ 8 }
        ensures { result ≡ parts.now }
    {
        let mut weights = ArrayVec::new();
        for part in parts {
            weights.push(*part);
        }
        Weights { parts: weights }
    }

    /// The weights, in the order of the categories.
    pub fn as_slice(&self) -> &[u128]
        ensures weights { result.now ≡ self.now }
        ensures few { length result.now ≤ 8 }
    {
        self.parts.as_slice()
    }
}
