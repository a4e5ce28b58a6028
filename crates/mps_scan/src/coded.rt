// Data events by codes, as words give them.
ghost use Rattle.std.specs.Prelude.{◌≡◌, ◌≤◌, [], ◌∷◌, ◌++◌, length};
ghost use Rattle.mps_scan.specs.Coded.{IsCoded, next_position};

use arrayvec::ArrayVec;
use std::marker::Model;

/// A template position, counted from 1, and the code there.
#[derive(Clone, Copy, Debug, Default, PartialEq, Eq)]
pub struct CodedDatum {
    pub position: u8,
    pub code: i32,
}

/// At most 64 data by their codes, at rising positions from 1 to 64.
#[derive(Drop)]
pub struct CodedEvent {
    list: ArrayVec<CodedDatum, 64>,
}

impl Model for CodedEvent {
    ghost use Rattle.std.specs.Prelude.{List};
    ghost use Rattle.mps_scan.specs.declared.coded.CodedDatum.{CodedDatum};
    ghost use Rattle.mps_scan.specs.Coded.{IsCoded};

    ghost Value = { List CodedDatum };

    ghost view = { λ e. e.list.items };

    ghost invariant = { λ e. IsCoded e.list.items };
}

impl CodedEvent {
    /// No data.
    pub fn empty() -> CodedEvent
        ensures { result ≡ [] }
    {
        CodedEvent {
            list: ArrayVec::new(),
        }
    }

    /// Adds a datum at a position beyond all others.
    pub fn push(&mut self, datum: CodedDatum)
        requires after { next_position self.old ≤ datum.position }
        requires last { datum.position ≤ 64 }
        ensures { self.new ≡ self.old ++ datum ∷ [] }
    {
        self.list.push(datum);
    }

    /// The data, by rising position.
    pub fn items(&self) -> &[CodedDatum]
        ensures items { result.now ≡ self.now }
        ensures coded { IsCoded self.now }
        ensures few { length self.now ≤ 64 }
    {
        self.list.as_slice()
    }

    /// The least position that may follow.
    pub fn next_position(&self) -> u8
        ensures value { result ≡ next_position self.now }
        ensures coded { IsCoded self.now }
    {
        match self.items() {
            [] => 1,
            [.., last] => last.position + 1,
        }
    }
}
