//! Numbers as text: decimal numbers as they are read and printed, short numbers of digits alone, and
//! numbers with spaces between. What appends may want memory, which is `NoMemory`.
#![tactic(auto)]

mod digit_text;
mod memory;
mod number;
mod printing;
mod scale;
mod spaced;
mod spelling;

pub use digit_text::{all_digits, short_number};
pub use memory::NoMemory;
pub use number::{NumberFault, read_micro, read_whole};
pub use printing::{push_micro, push_whole};
pub use spaced::{Micro, Printed, push_behind_spaces, push_spaced};

#[cfg(test)]
mod tests;
