//! Gates, which workers pass at named places of their work. The program's own gate is always open;
//! one that holds a worker back lets a test see that workers run beside each other.
#![tactic(auto)]

mod hold;
mod place;
mod shared;
#[cfg(test)]
mod tests;

pub use hold::HoldGate;
pub use place::{Gate, OpenGate, Place};
