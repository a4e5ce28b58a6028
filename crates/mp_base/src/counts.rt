// Numbers by category.
ghost use Rattle.std.specs.Prelude.{◌≡◌, ◌↔◌, ◌-◌, ◌<◌, ◌≤◌, ◌^◌, [], length, replicate, slice_index, IsTrue};
ghost use Rattle.std.specs.List.{sum};
ghost use Rattle.mp_base.specs.Counts.{one_more};

use crate::cell::Cat;
use arrayvec::ArrayVec;
use std::marker::Model;

/// A number for each category, of at most eight categories.
#[derive(Drop)]
pub struct Counts {
    parts: ArrayVec<u32, 8>,
}

impl Model for Counts {
    ghost use Rattle.std.specs.Prelude.{ℕ, List, ◌≤◌, length};

    ghost Value = { List ℕ };

    ghost view = { λ c. c.parts.items };

    ghost invariant = { λ c. length c.parts.items ≤ 8 };
}

impl Counts {
    /// Nothing counted yet, of so many categories.
    pub fn zero(cats: u8) -> Counts
        requires { cats ≤ 8 }
        ensures { result ≡ replicate cats 0 }
    {
        let mut parts = ArrayVec::new();
        for _ in 0..cats {
            parts.push(0);
        }
        Counts { parts }
    }

    /// These numbers, by category.
    pub fn of(parts: &[u32]) -> Counts
        requires { length parts.now ≤ 8 }
        ensures { result ≡ parts.now }
    {
        let mut counts = ArrayVec::new();
        for part in parts {
            counts.push(*part);
        }
        Counts { parts: counts }
    }

    /// How many categories there are.
    pub fn len(&self) -> u8
        ensures len { result ≡ length self.now }
        ensures few { result ≤ 8 }
    {
        self.parts.len() as u8
    }

    /// Whether there is no category.
    pub fn is_empty(&self) -> bool
        ensures { IsTrue result ↔ (self.now ≡ []) }
    {
        self.parts.is_empty()
    }

    /// The number of a category.
    pub fn get(&self, k: Cat) -> u32
        requires { k < length self.now }
        ensures { result ≡ slice_index self.now k }
    {
        self.parts[k.0 as usize]
    }

    /// Counts one more of a category.
    pub fn add_one(&mut self, k: Cat)
        requires cat { k < length self.old }
        requires room { slice_index self.old k < 2 ^ 32 - 1 }
        ensures { self.new ≡ one_more self.old k }
    {
        self.parts[k.0 as usize] += 1;
    }

    /// The sum of all numbers.
    pub fn total(&self) -> u64
        ensures { result ≡ sum self.now }
    {
        self.as_slice().iter().map(|part| u64::from(*part)).sum()
    }

    /// The numbers, in the order of the categories.
    pub fn as_slice(&self) -> &[u32]
        ensures parts { result.now ≡ self.now }
        ensures few { length result.now ≤ 8 }
    {
        self.parts.as_slice()
    }
}
