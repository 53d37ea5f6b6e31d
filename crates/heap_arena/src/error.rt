use core_tree::OutOfMemory;
use std::alloc::AllocError;
use thiserror::Error;

/// Why an object wasn't made.
#[derive(Clone, Copy, Debug, PartialEq, Eq, Drop, Error)]
pub enum MakeError {
    /// The heap would have more than 16,777,216 cells. It comes exactly there, and before memory is asked for.
    #[error("full cells")]
    Full,
    /// Memory ran out. It may come at any call.
    #[error("out of memory")]
    OutOfMemory,
}

impl From<AllocError> for MakeError {
    ghost use Rattle.std.specs.Prelude.{◌≡◌};
    ghost use Rattle.heap_arena.specs.declared.error.MakeError.TheVariants.{OutOfMemory};

    ghost from_gives = { λ _ error. error ≡ OutOfMemory };

    fn from(_: AllocError) -> Self {
        MakeError::OutOfMemory
    }
}

impl From<OutOfMemory> for MakeError {
    ghost use Rattle.std.specs.Prelude.{◌≡◌};
    ghost use Rattle.heap_arena.specs.declared.error.MakeError.TheVariants.{OutOfMemory};

    ghost from_gives = { λ _ error. error ≡ OutOfMemory };

    fn from(_: OutOfMemory) -> Self {
        MakeError::OutOfMemory
    }
}
