// A sink in memory, which fails as told.
ghost use Rattle.std.specs.Prelude.{◌≡◌, [], OnOk, OnErr};

use crate::calls::Calls;
use crate::files::OutFault;
use crate::sink::Sink;
use mp_number::NoMemory;
use std::alloc::Global;

/// A sink in memory, whose writes fail where that was planned.
#[derive(Drop)]
pub struct MemSink {
    bytes: Vec<u8>,
    faults: u64,
    calls: Calls,
}

impl MemSink {
    ghost use Rattle.mp_outside.specs.Calls.{no_call, with_failing};
    ghost use Rattle.mp_outside.specs.Memory.{sink_bytes, sink_faults, sink_plan};

    /// Nothing written, no fault yet, and no write to fail.
    pub fn new(alloc: Global) -> MemSink
        ensures bytes { sink_bytes result ≡ [] }
        ensures faults { sink_faults result ≡ 0 }
        ensures plan { sink_plan result ≡ no_call }
    {
        MemSink {
            bytes: Vec::new(alloc),
            faults: 0,
            calls: Calls::new(alloc),
        }
    }

    /// Has the nth write fail, counted from 1 since `new`. It first adds so many bytes of its
    /// piece, or all where there are fewer. Of several entries for one write the first that was
    /// made counts. What was written and the count stay as they are.
    pub fn fail(&mut self, nth: u32, added: u32) -> Result<(), NoMemory>
        ensures ok { OnOk result (sink_plan self.new ≡ with_failing nth added (sink_plan self.old)) }
        ensures err { OnErr result (sink_plan self.new ≡ sink_plan self.old) }
        ensures bytes { sink_bytes self.new ≡ sink_bytes self.old }
        ensures faults { sink_faults self.new ≡ sink_faults self.old }
    {
        self.calls.plan(nth, added)
    }

    /// What was written.
    pub fn bytes(&self) -> &[u8]
        ensures { result.now ≡ sink_bytes self.now }
    {
        self.bytes.as_slice()
    }
}

// Beside what all sinks promise, `write` says which of its calls fail.
impl Sink for MemSink {
    ghost use Rattle.std.specs.Prelude.{◌≤◌};
    ghost use Rattle.mp_outside.specs.Calls.{due, counted, FailsAsDue};
    ghost use Rattle.mp_outside.specs.Causes.{FailsOnlyIf, UnlessFailed, one_more};
    ghost use Rattle.mp_outside.specs.Contents.{Adds};
    ghost use Rattle.mp_outside.specs.Memory.{sink_bytes, sink_faults, sink_plan, sink_seen};
    ghost use Rattle.mp_outside.specs.Seen.{SinkFailed, SinkDidNotFail};

    ghost seen = { sink_seen };

    fn write(&mut self, piece: &[u8]) -> Result<(), OutFault>
        ensures added { Adds (sink_bytes self.old) (sink_bytes self.new) piece.now result }
        ensures fails { FailsAsDue (due (sink_plan self.old)) (sink_bytes self.old) (sink_bytes self.new) piece.now result }
        ensures plan { sink_plan self.new ≡ counted (sink_plan self.old) }
        ensures counted { FailsOnlyIf result (sink_faults self.new ≡ one_more (sink_faults self.old)) }
        ensures cause { FailsOnlyIf result (SinkFailed (sink_seen self.old) (sink_seen self.new)) }
        ensures uncounted { UnlessFailed result (SinkDidNotFail (sink_seen self.old) (sink_seen self.new)) }
        ensures later { sink_faults self.old ≤ sink_faults self.new }
    {
        match self.calls.count_call() {
            None => {
                self.bytes.extend_from_slice(piece)?;
                Ok(())
            }
            Some(added) => {
                let count = piece.len().min(added as usize);
                self.bytes.extend_from_slice(&piece[..count])?;
                self.faults = self.faults.saturating_add(1);
                Err(OutFault::Failed)
            }
        }
    }
}
