// What threads may share, and what may go from one to another: each call here is proved, and none is
// made when the program runs.
use crate::bench::Bench;
use crate::sim::{Helper, Sim};
use shared_grid::{Naming, Site};

fn share<T: Sync>(_value: &T) {}

fn give<T: Send>(_value: &T) {}

fn sim_shared<N: Naming, T: Site>(sim: &Sim<'_, N, T>) {
    share(sim);
}

fn parts_given<N: Naming, T: Site>(bench: &Bench<N, T>, helper: &Helper<N, T>) {
    give(bench);
    give(helper);
}
