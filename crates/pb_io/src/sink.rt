ghost use Rattle.std.specs.Prelude.{◌≡◌, ◌<◌, ◌≤◌, length, take, IfOk, OnOk, OnErr};
ghost use Rattle.pb_io.specs.Faults.{raised, Counts};
ghost use Rattle.pb_io.specs.Sink.{SinkState, with_bytes, NoFewer, IsFlushed, Puts};

use crate::OutsideFault;
use thiserror::Error;

/// What takes bytes, as standard output does.
pub trait Sink {
    /// The bytes written and how many of them are flushed, where the sink tells both, and three counts: of the calls
    /// that failed, of those that had no memory, and of the calls of `flush`.
    ghost state: { Self → SinkState };

    /// Takes one or more bytes from the front of a piece that isn't empty, and answers how many. After an error
    /// nothing of the piece is written, and the count of that error rose.
    fn write(&mut self, piece: &[u8]) -> Result<usize, OutsideFault>
        requires { 0 < length piece.now }
        ensures some { IfOk result (λ n. 0 < n) }
        ensures within { IfOk result (λ n. n ≤ length piece.now) }
        ensures ok { IfOk result (λ n.
            (state self.new).written ≡ with_bytes (state self.old).written (take n piece.now)) }
        ensures err { OnErr result ((state self.new).written ≡ (state self.old).written) }
        ensures flushed { NoFewer (state self.old).flushed (state self.new).flushed }
        ensures flushes { (state self.new).flushes ≡ (state self.old).flushes }
        ensures faults { Counts OutsideFault.Failed (state self.old).faults (state self.new).faults result }
        ensures wants { Counts OutsideFault.OutOfMemory (state self.old).wants (state self.new).wants result };

    /// Hands on all that was written. It changes none of the written bytes. Each call is counted, and after an error
    /// the count of that error rose.
    fn flush(&mut self) -> Result<(), OutsideFault>
        ensures ok { OnOk result (IsFlushed (state self.new)) }
        ensures written { (state self.new).written ≡ (state self.old).written }
        ensures flushed { NoFewer (state self.old).flushed (state self.new).flushed }
        ensures flushes { (state self.new).flushes ≡ raised (state self.old).flushes }
        ensures faults { Counts OutsideFault.Failed (state self.old).faults (state self.new).faults result }
        ensures wants { Counts OutsideFault.OutOfMemory (state self.old).wants (state self.new).wants result };
}

/// Why not all bytes were put.
#[derive(Clone, Copy, Debug, PartialEq, Eq, Drop, Error)]
pub enum PutError {
    /// The sink failed. It comes exactly where the sink's count of faults rose in the call.
    #[error("write fault")]
    WriteFault,
    /// The sink had no memory. It may come at any call, and comes exactly where the sink counted it.
    #[error("out of memory")]
    OutOfMemory,
}

impl From<OutsideFault> for PutError {
    ghost use Rattle.pb_io.specs.Errors.{put_error};

    ghost from_gives = { λ fault error. error ≡ put_error fault };

    fn from(fault: OutsideFault) -> Self {
        match fault {
            OutsideFault::Failed => PutError::WriteFault,
            OutsideFault::OutOfMemory => PutError::OutOfMemory,
        }
    }
}

/// Writes all bytes in order, in as many writes as the sink wants, and doesn't flush. Each write that doesn't fail
/// takes one byte or more. After the first error nothing more is written, so that a prefix of the bytes is. It takes
/// no memory itself.
pub fn put_all<O: Sink>(sink: &mut O, bytes: &[u8]) -> Result<(), PutError>
    ensures { Puts (O.state sink.old) (O.state sink.new) bytes.now result }
{
    let mut rest = bytes;
    while !rest.is_empty() {
        let taken = sink.write(rest)?;
        rest = &rest[taken..];
    }
    Ok(())
}
