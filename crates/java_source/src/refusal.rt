ghost use Rattle.std.specs.Prelude.{◌≡◌};

use java_tokens::TokenError;

/// Why a source has no program.
#[derive(Clone, Copy, Debug, PartialEq, Eq)]
pub enum SourceError {
    /// It isn't accepted.
    Refused(SourceRefusal),
    /// Memory ran out. It may come for any source.
    OutOfMemory,
}

/// Why a source isn't accepted. Lines and columns count from 1, a column in characters.
#[derive(Clone, Copy, Debug, PartialEq, Eq)]
pub enum SourceRefusal {
    /// It has more than 1,048,576 bytes.
    TooLong,
    /// It has no tokens, for a fault of this kind, which is at the byte with this offset, from 0.
    Lexical(TokenKindError, u32),
    /// No tree spells its tokens. The place is that of the token at which the parser stopped, or of the last one.
    Syntax { line: u32, column: u32 },
    /// No tree that is at most 200 nodes high spells its tokens, of which there are 200 or more.
    TooDeep,
    /// It breaks this rule at this place.
    Fault { rule: u8, line: u32, column: u32 },
}

/// The kinds of fault by which bytes have no tokens.
#[derive(Clone, Copy, Debug, PartialEq, Eq)]
pub enum TokenKindError {
    /// No well-formed character of UTF-8 begins at the byte.
    Utf8,
    /// A character there begins no token, or no escape.
    Character,
    /// A number there isn't of the language.
    Number,
    /// A string or a comment there isn't closed.
    Unclosed,
}

impl From<TokenError> for SourceError {
    ghost use Rattle.std.specs.Prelude.{◌≡◌};
    ghost use Rattle.java_source.specs.Refused.{token_refusal};

    ghost from_gives = { λ error made. made ≡ token_refusal error };

    fn from(error: TokenError) -> Self {
        match error {
            TokenError::BadUtf8(at) => lexical(TokenKindError::Utf8, at),
            TokenError::BadChar(at) => lexical(TokenKindError::Character, at),
            TokenError::BadNumber(at) => lexical(TokenKindError::Number, at),
            TokenError::Unclosed(at) => lexical(TokenKindError::Unclosed, at),
            TokenError::OutOfMemory => SourceError::OutOfMemory,
        }
    }
}

// The refusal of a source with a fault of this kind at this byte.
fn lexical(kind: TokenKindError, at: u32) -> SourceError
    ensures { result ≡ SourceError.Refused (SourceRefusal.Lexical kind at) }
{
    SourceError::Refused(SourceRefusal::Lexical(kind, at))
}
