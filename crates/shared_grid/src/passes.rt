// Passes: what a thread knows of the words. But for the writer's front they have no bytes.
use crate::names::{Naming, Site};
use crate::rule::View;
use atomic_table::Seat;
use std::marker::{Model, PhantomData};

/// A reader's pass. Contracts see it as the number seen: so many entries had been shown when the
/// thread last looked.
#[derive(Drop)]
pub struct Reader<N: Naming, T: Site> {
    pub(crate) seat: Seat<(), View>,
    pub(crate) of: PhantomData<(N, T)>,
}

impl<N: Naming, T: Site> Model for Reader<N, T> {
    ghost use Rattle.std.specs.Prelude.{◌≡◌, ◌≤◌, ℕ, [], length};
    ghost use Rattle.shared_grid.specs.Rule.{seen_by};
    ghost use Rattle.shared_grid.specs.declared.rule.View.TheVariants.{Reads};

    ghost Value = { ℕ };

    ghost view = { λ r. seen_by r.seat.me.0 };

    ghost invariant = { λ r. (r.seat.table_id ≡ T.words)
        × (r.seat.me ≡ (Reads (seen_by r.seat.me.0), []))
        × (seen_by r.seat.me.0 ≤ length N.story) };
}

/// The writer's pass. Contracts see it as how many entries are stored and how many are shown.
#[derive(Drop)]
pub struct Writer<N: Naming, T: Site> {
    pub(crate) front: u32,
    pub(crate) seat: Seat<(), View>,
    pub(crate) of: PhantomData<(N, T)>,
}

impl<N: Naming, T: Site> Model for Writer<N, T> {
    ghost use Rattle.std.specs.Prelude.{◌≡◌, ◌≤◌, [], length};
    ghost use Rattle.shared_grid.specs.Rule.{Progress, stored_by};
    ghost use Rattle.shared_grid.specs.declared.rule.View.TheVariants.{Writes};

    ghost Value = { Progress };

    ghost view = { λ w. record { stored = stored_by w.seat.me.0; front = w.front } };

    ghost invariant = { λ w. (w.seat.table_id ≡ T.words)
        × (w.seat.me ≡ (Writes (stored_by w.seat.me.0) w.front, []))
        × (w.front ≤ length N.story) };
}
