use std::alloc::AllocError;
use thiserror::Error;

/// Why a derivation has no clauses.
#[derive(Clone, Copy, Debug, PartialEq, Eq, Drop, Error)]
pub enum CheckLogError {
    /// The first line that isn't a resolution chain of earlier clauses, counted from 1.
    #[error("line {0} is no resolution chain of earlier clauses")]
    Bad(u32),
    /// Memory ran out. It may come at any call.
    #[error("out of memory")]
    OutOfMemory,
}

impl From<AllocError> for CheckLogError {
    ghost use Rattle.std.specs.Prelude.{◌≡◌};
    ghost use Rattle.derivation_check.specs.declared.error.CheckLogError.TheVariants.{OutOfMemory};

    ghost from_gives = { λ _ error. error ≡ OutOfMemory };

    fn from(_: AllocError) -> Self {
        CheckLogError::OutOfMemory
    }
}
