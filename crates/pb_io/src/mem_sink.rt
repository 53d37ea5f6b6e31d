ghost use Rattle.std.specs.Prelude.{◌≡◌, ◌<◌, ◌≤◌, ◌↔◌, min, length, IfOk, IfErr, IsErrOf};
ghost use Rattle.pb_io.specs.Calls.{NextFails};
ghost use Rattle.pb_io.specs.Faults.{Counts};
ghost use Rattle.pb_io.specs.MemSink.{sink_state, new_sink, after_write, after_flush};

use crate::calls::CallCounter;
use crate::{OutsideFault, Sink};
use std::marker::Model;

/// A sink that keeps what is written in memory, and fails at the calls that it is told to.
#[derive(Drop)]
pub struct MemSink {
    bytes: Vec<u8>,
    flushed: usize,
    largest: usize,
    writes: CallCounter,
    flushes: CallCounter,
    faults: u64,
    wants: u64,
}

impl Model for MemSink {
    ghost use Rattle.std.specs.Prelude.{◌<◌, ◌≤◌, length};
    ghost use Rattle.pb_io.specs.MemSink.{MemSinkState};

    ghost Value = { MemSinkState };

    ghost view = { λ fields. record {
      written = fields.bytes.items;
      flushed = fields.flushed;
      largest = fields.largest;
      writes = fields.writes;
      flushes = fields.flushes;
      faults = fields.faults;
      wants = fields.wants;
    } };

    ghost invariant = { λ fields. (fields.flushed ≤ length fields.bytes.items) × (0 < fields.largest) };
}

impl MemSink {
    /// A sink with nothing written, of which one write takes at most `largest` bytes. The writes and flushes with
    /// these numbers fail; each kind of call is counted from 1, also a write that is refused because memory ran out.
    pub fn new(largest: usize, failing_writes: Vec<u64>, failing_flushes: Vec<u64>) -> Self
        requires { 0 < largest }
        ensures { result ≡ new_sink largest failing_writes.items failing_flushes.items }
    {
        MemSink {
            bytes: Vec::new(*failing_writes.allocator()),
            flushed: 0,
            largest,
            writes: CallCounter::new(failing_writes),
            flushes: CallCounter::new(failing_flushes),
            faults: 0,
            wants: 0,
        }
    }

    /// All bytes written so far, flushed or not.
    pub fn written(&self) -> &[u8]
        ensures { result.now ≡ self.now.written }
    {
        &self.bytes
    }

    /// How many of the written bytes are flushed.
    pub fn flushed(&self) -> usize
        ensures flushed { result ≡ self.now.flushed }
        ensures within { result ≤ length self.now.written }
    {
        self.flushed
    }
}

impl Sink for MemSink {
    ghost state = { sink_state };

    fn write(&mut self, piece: &[u8]) -> Result<usize, OutsideFault>
        requires { 0 < length piece.now }
        ensures some { IfOk result (λ n. 0 < n) }
        ensures taken { IfOk result (λ n. n ≡ min (length piece.now) self.old.largest) }
        ensures failed { IsErrOf result OutsideFault.Failed ↔ NextFails self.old.writes }
        ensures after { self.new ≡ after_write self.old piece.now result }
        ensures faults { Counts OutsideFault.Failed self.old.faults self.new.faults result }
        ensures wants { Counts OutsideFault.OutOfMemory self.old.wants self.new.wants result }
    {
        if self.writes.next_fails() {
            self.faults = self.faults.saturating_add(1);
            return Err(OutsideFault::Failed);
        }
        let taken = piece.len().min(self.largest);
        if self.bytes.extend_from_slice(&piece[..taken]).is_err() {
            self.wants = self.wants.saturating_add(1);
            return Err(OutsideFault::OutOfMemory);
        }
        Ok(taken)
    }

    fn flush(&mut self) -> Result<(), OutsideFault>
        ensures failed { IsErrOf result OutsideFault.Failed ↔ NextFails self.old.flushes }
        ensures no_memory { IfErr result (λ fault. fault ≡ OutsideFault.Failed) }
        ensures after { self.new ≡ after_flush self.old result }
        ensures flushed { self.old.flushed ≤ self.new.flushed }
        ensures faults { Counts OutsideFault.Failed self.old.faults self.new.faults result }
        ensures wants { Counts OutsideFault.OutOfMemory self.old.wants self.new.wants result }
    {
        if self.flushes.next_fails() {
            self.faults = self.faults.saturating_add(1);
            return Err(OutsideFault::Failed);
        }
        self.flushed = self.bytes.len();
        Ok(())
    }
}
