//! The command `demo`: a training image of channels and wells in it, both drawn by a seed, and the
//! report of a simulation from them.
#![tactic(auto)]

mod channels;
mod command;
mod drawing;
mod image;
mod inputs;
#[cfg(test)]
mod tests;
mod wells;

pub use command::demo;
pub use inputs::draw_inputs;
