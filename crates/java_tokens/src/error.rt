use std::alloc::{AllocError, AllocFailed};
use thiserror::Error;

/// Why bytes have no tokens. A place is the offset of a byte, counted from 0.
///
/// Each fault is met at one place: an `Unclosed` text at the end of the line or of the file that comes too early, each
/// other fault at the place that it names. The one that is met first counts.
#[derive(Clone, Copy, Debug, PartialEq, Eq, Error)]
pub enum TokenError {
    /// At this byte no well-formed character of UTF-8 begins.
    #[error("bad UTF-8 at byte {0}")]
    BadUtf8(u32),
    /// At this byte stands a character that begins no token, or a backslash in a string that begins no escape.
    #[error("bad character at byte {0}")]
    BadChar(u32),
    /// From this byte on stands a digit and what goes on from it as an identifier does, which is no number.
    #[error("bad number at byte {0}")]
    BadNumber(u32),
    /// At this byte begins a string that its line doesn't close, or a comment that the file doesn't.
    #[error("unclosed text at byte {0}")]
    Unclosed(u32),
    /// Memory ran out. It may come for any bytes.
    #[error("out of memory")]
    OutOfMemory,
}

impl From<AllocError> for TokenError {
    ghost use Rattle.std.specs.Prelude.{◌≡◌};
    ghost use Rattle.java_tokens.specs.declared.error.TokenError.TheVariants.{OutOfMemory};

    ghost from_gives = { λ _ error. error ≡ OutOfMemory };

    fn from(_: AllocError) -> Self {
        TokenError::OutOfMemory
    }
}

impl<T: Drop> From<AllocFailed<T>> for TokenError {
    ghost use Rattle.std.specs.Prelude.{◌≡◌};
    ghost use Rattle.java_tokens.specs.declared.error.TokenError.TheVariants.{OutOfMemory};

    ghost from_gives = { λ _ error. error ≡ OutOfMemory };

    fn from(_: AllocFailed<T>) -> Self {
        TokenError::OutOfMemory
    }
}
