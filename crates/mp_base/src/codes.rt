// The codes that stand for categories in files.
ghost use Rattle.std.specs.Prelude.{◌≡◌, ◌≤◌, length};

use arrayvec::ArrayVec;
use std::marker::Model;

/// The codes of at most eight categories, in the order of the categories' indices.
#[derive(Drop)]
pub struct CodeList {
    codes: ArrayVec<i32, 8>,
}

impl Model for CodeList {
    ghost use Rattle.std.specs.Prelude.{ℤ, List, ◌≤◌, length};

    ghost Value = { List ℤ };

    ghost view = { λ c. c.codes.items };

    ghost invariant = { λ c. length c.codes.items ≤ 8 };
}

impl CodeList {
    /// The list of these codes.
    pub fn new(codes: ArrayVec<i32, 8>) -> CodeList
        ensures { result ≡ codes.items }
    {
        CodeList { codes }
    }

    /// The codes, in order.
    pub fn as_slice(&self) -> &[i32]
        ensures codes { result.now ≡ self.now }
        ensures few { length result.now ≤ 8 }
    {
        self.codes.as_slice()
    }

    /// The codes as they were given.
    pub fn into_inner(self) -> ArrayVec<i32, 8>
        ensures { result.items ≡ self }
    {
        self.codes
    }
}

/// The codes of the categories, and the code that stands for a missing value.
#[derive(Drop)]
pub struct Codes {
    pub categories: CodeList,
    pub missing: i32,
}
