// The rule of the words, and what each step on them tells the thread that takes it.
use crate::names::Naming;
use atomic_table::{Join, Play, Split, TableRule};
use std::marker::PhantomData;

/// What a pass knows. It exists in contracts alone.
pub enum View {
    /// The one writer's: how many entries are stored, and the front.
    Writes { stored: u64, front: u64 },
    /// A reader's: a front that it has seen.
    Reads { seen: u64 },
    /// Nothing: the pass went into another.
    Spent,
}

/// The words show the story of a name.
pub struct Law<N: Naming> {
    name: PhantomData<N>,
}

impl<N: Naming> TableRule<(), View, ()> for Law<N> {
    ghost use Rattle.shared_grid.specs.Rule.{IsKept};
    ghost use Rattle.shared_grid.specs.declared.rule.View.TheVariants.{Writes};

    ghost holds = { λ _ s. IsKept N.plan N.story s };

    ghost first = { λ _. Writes 0 0 };
}

/// A reader loads the front.
pub struct LoadsFront<N: Naming> {
    name: PhantomData<N>,
}

impl<N: Naming> Play<(), View> for LoadsFront<N> {
    ghost use Rattle.shared_grid.specs.Steps.{front_loaded};

    ghost then = { front_loaded N.story };
}

/// A reader loads a cell.
pub struct LoadsCell<N: Naming> {
    name: PhantomData<N>,
}

impl<N: Naming> Play<(), View> for LoadsCell<N> {
    ghost use Rattle.shared_grid.specs.Steps.{cell_loaded};

    ghost then = { cell_loaded N.plan N.story };
}

/// The writer stores a cell.
pub struct StoresCell;

impl Play<(), View> for StoresCell {
    ghost use Rattle.shared_grid.specs.Steps.{cell_stored};

    ghost then = { cell_stored };
}

/// The writer stores the front.
pub struct StoresFront;

impl Play<(), View> for StoresFront {
    ghost use Rattle.shared_grid.specs.Steps.{front_stored};

    ghost then = { front_stored };
}

/// A new reader has seen as much as a pass.
pub struct Notes;

impl Split<View> for Notes {
    ghost use Rattle.shared_grid.specs.Rule.{seen_by};
    ghost use Rattle.shared_grid.specs.declared.rule.View.TheVariants.{Reads};

    ghost left = { λ v. v };

    ghost right = { λ v. Reads (seen_by v) };
}

/// A reader has seen what two have seen.
pub struct Meets;

impl Join<View> for Meets {
    ghost use Rattle.std.specs.Prelude.{max};
    ghost use Rattle.shared_grid.specs.Rule.{seen_by};
    ghost use Rattle.shared_grid.specs.declared.rule.View.TheVariants.{Reads, Spent};

    ghost both = { λ v w. Reads (max (seen_by v) (seen_by w)) };

    ghost spent = { Spent };
}
