ghost use Rattle.std.specs.Prelude.{◌≡◌, Ok, IfOk};
ghost use Rattle.pb_io.specs.Faults.{Counts};
ghost use Rattle.pb_io.specs.Host.{stream_state};

use crate::host::counted;
use crate::{OutsideFault, Sink};
use std::io;
use std::io::Write;
use std::marker::Model;

/// A sink over a stream of the system, as standard output and standard error. It tells how often it failed, it had no
/// memory, and its flush was called.
#[derive(Drop)]
pub struct HostSink<W: Write + Drop> {
    stream: W,
    faults: u64,
    wants: u64,
    flushes: u64,
}

impl<W: Write + Drop> Model for HostSink<W> {
    ghost use Rattle.pb_io.specs.Host.{StreamState};

    ghost Value = { StreamState };

    ghost view = { λ sink. record { faults = sink.faults; wants = sink.wants; flushes = sink.flushes } };
}

impl<W: Write + Drop> HostSink<W> {
    /// A sink over this stream, with no call so far.
    pub fn new(stream: W) -> Self
        ensures { result ≡ record { faults = 0; wants = 0; flushes = 0 } }
    {
        HostSink {
            stream,
            faults: 0,
            wants: 0,
            flushes: 0,
        }
    }

    // Answers an error of the stream as a fault, and counts it.
    fn counted<T: Drop>(&mut self, outcome: io::Result<T>) -> Result<T, OutsideFault>
        ensures value { IfOk result (λ value. outcome ≡ Ok value) }
        ensures flushes { self.new.flushes ≡ self.old.flushes }
        ensures faults { Counts OutsideFault.Failed self.old.faults self.new.faults result }
        ensures wants { Counts OutsideFault.OutOfMemory self.old.wants self.new.wants result }
    {
        let result = counted(&mut self.faults, outcome);
        if matches!(result, Err(OutsideFault::OutOfMemory)) {
            self.wants = self.wants.saturating_add(1);
        }
        result
    }
}

impl<W: Write + Drop> Sink for HostSink<W> {
    ghost state = { stream_state };

    fn write(&mut self, piece: &[u8]) -> Result<usize, OutsideFault> {
        let outcome = self.stream.write(piece);
        let taken = self.counted(outcome)?;
        if taken == 0 {
            // A stream that takes nothing would be asked without end.
            self.faults = self.faults.saturating_add(1);
            return Err(OutsideFault::Failed);
        }
        Ok(taken)
    }

    fn flush(&mut self) -> Result<(), OutsideFault> {
        self.flushes = self.flushes.saturating_add(1);
        let outcome = self.stream.flush();
        self.counted(outcome)
    }
}
