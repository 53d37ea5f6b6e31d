ghost use Rattle.std.specs.Prelude.{◌≡◌, ◌+◌, ◌<◌, ◌≤◌, false, true, length, drop, vec_len, IfOk, IfSome, OnOk, OnErr, IsErrOf};
ghost use Rattle.std.specs.Option.{option_map};
ghost use Rattle.pb_io.specs.Faults.{Counts};
ghost use Rattle.pb_io.specs.Files.{FilesState, names_after, Gives, StartsOnce, TakesWithin};

use crate::OutsideFault;
use std::alloc::{AllocError, Global};
use thiserror::Error;

/// Named files, read one at a time from their beginning to their end.
pub trait Files {
    /// The names that it tells no file has; the bytes of the file of each name, the names started and the rest of the
    /// started file, where the object tells it; whether a file is started; and the count of the calls that failed.
    ghost state: { Self → FilesState };

    /// Begins the named file, and leaves any earlier one. After an error no file is started.
    fn start(&mut self, name: &str) -> Result<(), OutsideFault>
        ensures begun { OnOk result ((state self.new).is_started ≡ true) }
        ensures none { OnErr result ((state self.new).is_started ≡ false) }
        ensures whole { OnOk result ((state self.new).rest ≡ (state self.old).bytes_of name.now) }
        ensures there { OnOk result ((state self.old).lacks name.now ≡ false) }
        ensures names { (state self.new).started ≡ names_after result (state self.old).started name.now }
        ensures lacks { (state self.new).lacks ≡ (state self.old).lacks }
        ensures bytes { (state self.new).bytes_of ≡ (state self.old).bytes_of }
        ensures faults { Counts OutsideFault.Failed (state self.old).faults (state self.new).faults result };

    /// Gives the next bytes of the started file in the first places of a slice that isn't empty, and answers how
    /// many; 0 is exactly the end of the file. After an error all that was left is left.
    fn read(&mut self, into: &mut [u8]) -> Result<usize, OutsideFault>
        requires started { (state self.old).is_started ≡ true }
        requires room { 0 < length into.old }
        ensures within { IfOk result (λ n. n ≤ length into.old) }
        ensures gives { IfOk result (λ n. Gives (state self.old).rest (state self.new).rest n into.new) }
        ensures err { OnErr result ((state self.new).rest ≡ (state self.old).rest) }
        ensures started { (state self.new).is_started ≡ true }
        ensures names { (state self.new).started ≡ (state self.old).started }
        ensures lacks { (state self.new).lacks ≡ (state self.old).lacks }
        ensures bytes { (state self.new).bytes_of ≡ (state self.old).bytes_of }
        ensures faults { Counts OutsideFault.Failed (state self.old).faults (state self.new).faults result };
}

/// Why a file wasn't read.
#[derive(Clone, Copy, Debug, PartialEq, Eq, Drop, Error)]
pub enum ReadError {
    /// The files failed. It comes exactly where their count of faults rose in the call.
    #[error("read fault")]
    ReadFault,
    /// The file has more bytes than the limit.
    #[error("too long")]
    TooLong,
    /// Memory ran out. It may come at any call.
    #[error("out of memory")]
    OutOfMemory,
}

impl From<OutsideFault> for ReadError {
    ghost use Rattle.pb_io.specs.Errors.{read_error};

    ghost from_gives = { λ fault error. error ≡ read_error fault };

    fn from(fault: OutsideFault) -> Self {
        match fault {
            OutsideFault::Failed => ReadError::ReadFault,
            OutsideFault::OutOfMemory => ReadError::OutOfMemory,
        }
    }
}

impl From<AllocError> for ReadError {
    ghost use Rattle.std.specs.Prelude.{◌≡◌};
    ghost use Rattle.pb_io.specs.declared.files.ReadError.TheVariants.{OutOfMemory};

    ghost from_gives = { λ _ error. error ≡ OutOfMemory };

    fn from(_: AllocError) -> Self {
        ReadError::OutOfMemory
    }
}

// How many bytes are asked for at a time.
const CHUNK: usize = 8192;

/// The bytes of the named file, of which there may be at most `limit`. It starts the name once and no other, takes
/// at most `limit + 1` bytes however it ends, and each turn but the last takes one or more. After the first error it
/// makes no call.
pub fn read_file<F: Files>(
    alloc: Global,
    files: &mut F,
    name: &str,
    limit: usize,
) -> Result<Vec<u8>, ReadError>
    ensures whole { IfOk result (λ bytes.
        IfSome ((F.state files.old).bytes_of name.now) (λ file. bytes.items ≡ file)) }
    ensures within { IfOk result (λ bytes. vec_len bytes ≤ limit) }
    ensures there { OnOk result ((F.state files.old).lacks name.now ≡ false) }
    ensures too_long_there { IsErrOf result ReadError.TooLong → (F.state files.old).lacks name.now ≡ false }
    ensures too_long { IsErrOf result ReadError.TooLong
        → IfSome ((F.state files.old).bytes_of name.now) (λ file. limit < length file) }

    // What is left of the file: it takes no more than one byte beyond the limit.
    ensures taken { IfOk result (λ bytes. (F.state files.new).rest
        ≡ option_map (drop (vec_len bytes)) ((F.state files.old).bytes_of name.now)) }
    ensures stopped { IsErrOf result ReadError.TooLong → (F.state files.new).rest
        ≡ option_map (drop (limit + 1)) ((F.state files.old).bytes_of name.now) }

    ensures left { OnErr result (TakesWithin (F.state files.new) ((F.state files.old).bytes_of name.now) limit) }

    ensures names { StartsOnce result (F.state files.old).started (F.state files.new).started name.now }
    ensures bytes { (F.state files.new).bytes_of ≡ (F.state files.old).bytes_of }
    ensures faults { Counts ReadError.ReadFault (F.state files.old).faults (F.state files.new).faults result }
{
    files.start(name)?;
    let mut bytes = Vec::new(alloc);
    let mut chunk = [0; CHUNK];
    while bytes.len() <= limit {
        let room = (limit - bytes.len()).min(CHUNK - 1) + 1;
        let taken = files.read(&mut chunk[..room])?;
        if taken == 0 {
            return Ok(bytes);
        }
        bytes.extend_from_slice(&chunk[..taken])?;
    }
    Err(ReadError::TooLong)
}
