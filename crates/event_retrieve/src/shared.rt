// What threads may share: each call of `share` is proved, and none is made when the program runs.
use crate::around::{Centre, Surroundings};
use crate::plan::LevelPlan;

fn share<T: Sync>(_value: &T) {}

fn plan_shared(plan: &LevelPlan<'_>) {
    share(plan);
}

fn around_shared(around: &Surroundings<'_>, centre: &Centre<'_>) {
    share(around);
    share(centre);
}
