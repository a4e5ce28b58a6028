// What ties the values of one level to each other in contracts.
use std::marker::Brand;

/// A name of one level: a plan, a window and a story, which is the list of entries that the writer
/// stores, in order. It has no method and no value. What carries the same name is of the same plan
/// and story. A name is chosen before the words are made, since their rule speaks of the story.
pub trait Naming: Send + Sync {
    ghost use Rattle.std.specs.Prelude.{ℕ, List};
    ghost use Rattle.mp_base.specs.declared.cell.Entry.{Entry};
    ghost use Rattle.event_retrieve.specs.Plan.{Plan};

    /// What a plan is seen as: its numbers and lists.
    ghost plan: { Plan };

    /// How far ahead of the front a node may be claimed.
    ghost window: { ℕ };

    /// The entries in the order in which they are stored.
    ghost story: { List Entry };
}

/// One set of words. It has no method and no value. What carries the same site is of the same
/// words. A site is chosen after the words are made, since their identity exists only then.
pub trait Site: Send + Sync {
    ghost use Rattle.atomic_table.specs.Seated.{TableId};

    /// Which words they are.
    ghost words: { TableId };
}

// Both are chosen at a call that passes `Brand`, in contracts alone. The values here are those that
// it has where nothing is chosen.
impl Naming for Brand {
    ghost use Rattle.std.specs.Prelude.{[]};
    ghost use Rattle.shared_grid.specs.Unnamed.{no_plan};

    ghost plan = { no_plan };

    ghost window = { 1 };

    ghost story = { [] };
}

impl Site for Brand {
    ghost use Rattle.shared_grid.specs.Unnamed.{no_words};

    ghost words = { no_words };
}
