// What threads may share: each call of `share` is proved, and none is made when the program runs.
use crate::event::{Datum, Event};
use crate::store::{CountStore, LongestPrefix};
use mp_base::{Counts, Grid};
use template_order::Template;

fn share<T: Sync>(_value: &T) {}

// Any store may be shared, an `Eroded` among them.
fn store_shared<S: CountStore>(store: &S) {
    share(store);
}

fn all_shared(
    grid: &Grid,
    template: &Template,
    datum: &Datum,
    event: &Event,
    counts: &Counts,
    longest: &LongestPrefix,
) {
    share(grid);
    share(template);
    share(datum);
    share(event);
    share(counts);
    share(longest);
}
