//! Parameter files: their keys, how they are read, and how they are printed.
#![tactic(auto)]

mod fault;
mod found;
mod params;
mod printing;
mod reading;
mod settings;
mod table;

pub use fault::{ParamsError, ParamsFault};
pub use mp_values::{Name, StoreChoice, Targets};
pub use params::Params;
pub use printing::print_params;
pub use reading::read_params;
pub use table::Key;

#[cfg(test)]
mod tests;
