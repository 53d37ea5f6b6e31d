use std::alloc::AllocError;
use thiserror::Error;

/// Why tokens are no tree.
#[derive(Clone, Copy, Debug, PartialEq, Eq, Drop, Error)]
pub enum ParseError {
    /// No tree spells the tokens. The number is that of the token at which the reader stopped, counted from 0; it is at
    /// most the number of tokens.
    #[error("syntax error at token {0}")]
    Syntax(u32),
    /// No tree of height 200 or less spells the tokens, and there are at least 200 of them.
    #[error("the source nests too deeply")]
    TooDeep,
    /// Memory ran out. It may come for any tokens.
    #[error("out of memory")]
    OutOfMemory,
}

impl From<AllocError> for ParseError {
    ghost use Rattle.std.specs.Prelude.{◌≡◌};
    ghost use Rattle.token_reading.specs.declared.error.ParseError.TheVariants.{OutOfMemory};

    ghost from_gives = { λ _ error. error ≡ OutOfMemory };

    fn from(_: AllocError) -> ParseError {
        ParseError::OutOfMemory
    }
}
