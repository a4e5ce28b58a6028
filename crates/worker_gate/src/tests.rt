use crate::Place::{Claimed, Speculated};
use crate::{Gate, HoldGate, OpenGate, Place};
use std::test::Fail;
use std::thread;
use std::thread::Threads;

// Whether workers that came to these places one after another have met, at a gate of three turns.
fn met_after(steps: &[(u32, Place)]) -> bool {
    let gate = HoldGate::new(3);
    for (worker, place) in steps {
        gate.at(*worker, *place, 0);
    }
    gate.met()
}

#[test]
fn workers_have_met_where_another_counted_before_a_hold_ran_out(rt: HostRuntime) {
    let none: [(u32, Place); 0] = [];
    assert!(rt; !met_after(&none));
    assert!(rt; met_after(&[(1, Speculated)]));
    assert!(rt; met_after(&[(2, Claimed), (2, Speculated), (0, Claimed), (0, Speculated)]));
    assert!(rt; met_after(&[(1, Speculated), (0, Claimed), (0, Claimed)]));
    assert!(rt; !met_after(&[(1, Claimed), (0, Speculated)]));
    assert!(rt; !met_after(&[(0, Claimed)]));
    assert!(rt; !met_after(&[(0, Claimed), (1, Speculated)]));
    OpenGate.at(0, Claimed, 0);
}

#[test]
fn a_held_worker_meets_one_of_another_thread(rt: HostRuntime) {
    let gate = HoldGate::new(1_000_000_000);
    thread::join(
        &rt,
        || gate.at(0, Claimed, 0),
        || {
            gate.at(1, Claimed, 1);
            gate.at(1, Speculated, 1);
        },
    );
    assert!(rt; gate.met());
}
