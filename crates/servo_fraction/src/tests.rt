use crate::{Target, Weights, pick, weights};
use mp_base::{Cat, Counts};

#[test]
fn weights_of_worked_nodes(rt: HostRuntime) {
    for (counts, target, known, servo, expected) in [
        ([1, 3], [2, 4], [0, 0], 500, [1, 3]),
        ([1, 3], [2, 4], [0, 1], 500, [7000, 5000]),
        ([1, 1], [2, 4], [1, 1], 500, [4000, 8000]),
        ([0, 1], [2, 4], [1, 2], 500, [0, 9000]),
        ([1, 3], [2, 4], [0, 1], 999, [7998, 0]),
        ([0, 4], [1_000_000, 0], [0, 0], 999, [0, 4]),
        ([0, 4], [1_000_000, 0], [0, 1], 999, [3_996_000_000, 0]),
    ] {
        let (counts, known) = (Counts::of(&counts), Counts::of(&known));
        let target = Target::new(Counts::of(&target));
        let found = weights(&counts, &target.copy(), &known, servo);
        let [first, second]: [u128; 2] = expected;
        assert_eq!(rt; found.as_slice()[0], first);
        assert_eq!(rt; found.as_slice()[1], second);
    }
}

#[test]
fn words_pick_categories(rt: HostRuntime) {
    for (weights, word, expected) in [
        ([1, 3], 0x3FFF_FFFF, 0),
        ([1, 3], 0x4000_0000, 1),
        ([7998, 0], 0xFFFF_FFFF, 0),
    ] {
        assert_eq!(rt; pick(&Weights::of(&weights), word), Cat(expected));
    }
}
