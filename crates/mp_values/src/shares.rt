// The wanted shares of the categories.
ghost use Rattle.std.specs.Prelude.{◌≡◌, ◌≤◌, length};

use arrayvec::ArrayVec;
use std::marker::Model;

/// The wanted share of each category in parts per million, in the order of the categories'
/// indices.
#[derive(Debug, Drop)]
pub struct Targets {
    parts: ArrayVec<u32, 8>,
}

impl Model for Targets {
    ghost use Rattle.std.specs.Prelude.{ℕ, List, ◌≤◌, length};

    ghost Value = { List ℕ };

    ghost view = { λ t. t.parts.items };

    ghost invariant = { λ t. length t.parts.items ≤ 8 };
}

impl Targets {
    /// These shares.
    pub fn new(parts: ArrayVec<u32, 8>) -> Targets
        ensures { result ≡ parts.items }
    {
        Targets { parts }
    }

    /// The shares, in order.
    pub fn as_slice(&self) -> &[u32]
        ensures parts { result.now ≡ self.now }
        ensures few { length result.now ≤ 8 }
    {
        self.parts.as_slice()
    }

    /// The shares as they were given.
    pub fn into_inner(self) -> ArrayVec<u32, 8>
        ensures { result.items ≡ self }
    {
        self.parts
    }
}
