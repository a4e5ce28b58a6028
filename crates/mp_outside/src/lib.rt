//! Files and sinks, by what they hold and by the counts of their faults: in memory, in memory
//! without faults, and of the host.
#![tactic(auto)]

mod calls;
mod copy;
mod files;
mod host;
mod limit;
mod memory;
mod memory_sink;
mod no_fault;
mod sink;
#[cfg(test)]
mod tests;

pub use files::{Failed, Files, OutFault};
pub use host::{HostFiles, HostSink};
pub use limit::read_to_limit;
pub use memory::{CallKind, MemFiles};
pub use memory_sink::MemSink;
pub use no_fault::{NoFaultFiles, NoFaultSink};
pub use sink::Sink;
