// Data events.
ghost use Rattle.std.specs.Prelude.{◌≡◌, ◌+◌, ◌<◌, ◌≤◌, [], ◌∷◌, ◌++◌, ◌↔◌, length, take, IsTrue};
ghost use Rattle.ti_scan.specs.Rising.{RisesFrom, next_position};

use arrayvec::ArrayVec;
use mp_base::Cat;
use std::marker::Model;

/// A template position, counted from 1, and the category there.
#[derive(Clone, Copy, Debug, Default, PartialEq, Eq)]
pub struct Datum {
    pub position: u8,
    pub cat: Cat,
}

/// At most 64 data, at rising positions from 1 to 64.
#[derive(Drop)]
pub struct Event {
    list: ArrayVec<Datum, 64>,
}

impl Model for Event {
    ghost use Rattle.std.specs.Prelude.{List};
    ghost use Rattle.ti_scan.specs.declared.event.Datum.{Datum};
    ghost use Rattle.ti_scan.specs.Rising.{RisesFrom};

    ghost Value = { List Datum };

    ghost view = { λ e. e.list.items };

    ghost invariant = { λ e. RisesFrom 1 64 e.list.items };
}

impl Event {
    /// No data.
    pub fn empty() -> Event
        ensures { result ≡ [] }
    {
        Event {
            list: ArrayVec::new(),
        }
    }

    /// Adds a datum at a position beyond all others.
    pub fn push(&mut self, datum: Datum)
        requires after { next_position self.old ≤ datum.position }
        requires last { datum.position ≤ 64 }
        ensures { self.new ≡ self.old ++ datum ∷ [] }
    {
        self.list.push(datum);
    }

    /// The data, by rising position.
    pub fn items(&self) -> &[Datum]
        ensures items { result.now ≡ self.now }
        ensures rising { RisesFrom 1 64 self.now }
        ensures few { length self.now ≤ 64 }
    {
        self.list.as_slice()
    }
}

impl Event {
    /// How many data there are.
    pub fn len(&self) -> u8
        ensures len { result ≡ length self.now }
        ensures few { result ≤ 64 }
    {
        self.items().len() as u8
    }

    /// Whether there is no datum.
    pub fn is_empty(&self) -> bool
        ensures { IsTrue result ↔ (self.now ≡ []) }
    {
        self.items().is_empty()
    }

    /// The first `len` data.
    pub fn prefix(&self, len: u8) -> Event
        requires { len ≤ length self.now }
        ensures { result ≡ take len self.now }
    {
        let mut first = Event::empty();
        for datum in &self.items()[..len as usize] {
            first.push(*datum);
        }
        first
    }
}
