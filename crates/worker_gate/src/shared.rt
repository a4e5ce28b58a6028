// What threads may share: each call of `share` is proved, and none is made when the program runs.
use crate::hold::HoldGate;
use crate::place::{Gate, OpenGate};

fn share<T: Sync>(_value: &T) {}

fn gate_shared<G: Gate>(gate: &G) {
    share(gate);
}

fn all_shared(open: &OpenGate, hold: &HoldGate) {
    share(open);
    share(hold);
}
