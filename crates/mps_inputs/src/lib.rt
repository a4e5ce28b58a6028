//! The inputs of a command: its files, read and judged in their order and turned into a simulation;
//! why a command is refused or breaks off, with the line and the status of each cause; and what all
//! commands share of reading, writing and answering.
#![tactic(auto)]

mod causes;
mod fault;
mod files;
mod inputs;
mod judging;
mod line;
mod setup;
mod statuses;
mod stores;
mod tables;

pub use fault::{Fault, Name, ScheduleFault};
pub use files::{create_output, read_file, report, write_fault};
pub use inputs::{Inputs, codes_of, read_inputs, read_parameters, read_tables};
pub use judging::{Judged, judge};
pub use line::fault_line;
pub use statuses::{fault_status, status};
pub use stores::kind_for;
