use std::alloc::AllocError;
use thiserror::Error;

/// A rule that is broken, and the number of the token at which it is, counted from 0.
#[derive(Clone, Copy, Debug, Drop, PartialEq, Eq)]
pub struct Fault {
    pub rule: u8,
    pub at: u32,
}

/// Why a check gives no answer.
#[derive(Debug, Drop, Error)]
pub enum CheckError {
    /// A rule is broken.
    #[error("a rule is broken")]
    Fault(Fault),
    /// There was no memory left.
    #[error("out of memory")]
    OutOfMemory,
}

impl From<AllocError> for CheckError {
    ghost use Rattle.std.specs.Prelude.{◌≡◌};
    ghost use Rattle.token_reading.specs.declared.fault.CheckError.TheVariants.{OutOfMemory};

    ghost from_gives = { λ _ result. result ≡ OutOfMemory };

    fn from(_: AllocError) -> CheckError {
        CheckError::OutOfMemory
    }
}
