// The host's streams.
ghost use Rattle.std.specs.Prelude.{◌≡◌};

use crate::files::OutFault;
use crate::sink::Sink;
use std::io;
use std::io::Write;

/// A stream of the host, as standard output or standard error. It tells no contents and keeps no
/// bytes back. Its count rises at each error.
#[derive(Drop)]
pub struct HostSink<W> {
    stream: W,
    failed_writes: u64,
}

impl<W: Write + Drop> HostSink<W> {
    ghost use Rattle.mp_outside.specs.Host.{sink_faults};

    /// The stream, with no fault yet.
    pub fn new(stream: W) -> HostSink<W>
        ensures { sink_faults result ≡ 0 }
    {
        HostSink {
            stream,
            failed_writes: 0,
        }
    }
}

// Writes all of a piece.
fn write_piece<W: Write + Drop>(stream: &mut W, piece: &[u8]) -> io::Result<()> {
    stream.write_all(piece)?;
    stream.flush()
}

impl<W: Write + Drop> Sink for HostSink<W> {
    ghost use Rattle.mp_outside.specs.Host.{sink_seen};

    ghost seen = { sink_seen };

    fn write(&mut self, piece: &[u8]) -> Result<(), OutFault> {
        match write_piece(&mut self.stream, piece) {
            Ok(()) => Ok(()),
            Err(_) => {
                self.failed_writes = self.failed_writes.saturating_add(1);
                Err(OutFault::Failed)
            }
        }
    }
}
