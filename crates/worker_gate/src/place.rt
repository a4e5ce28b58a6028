// The places that workers pass, and the gate of the program.

/// Where a worker is.
#[derive(Clone, Copy, Debug, PartialEq, Eq)]
pub enum Place {
    /// It has claimed a path node and looked at no cell yet.
    Claimed,
    /// It has counted that node ahead and offered nothing yet.
    Speculated,
}

/// What workers pass, each with its number, counted from 0, and the index of its path node. Threads
/// may share it. What it does changes nothing that a contract sees: no clause speaks of it.
pub trait Gate: Sync {
    /// Returns once the worker may go on.
    fn at(&self, worker: u32, place: Place, index: u32);
}

/// The gate of the program: it returns at once.
#[derive(Clone, Copy, Debug, PartialEq, Eq)]
pub struct OpenGate;

impl Gate for OpenGate {
    fn at(&self, _worker: u32, _place: Place, _index: u32) {}
}
