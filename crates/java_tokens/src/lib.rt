//! The tokens of a source.
//!
//! `tokens` reads the bytes of a file as the list of its tokens, with their bytes, lines and columns, or names the
//! first fault. `specs/Tokens` says when a list of tokens is that of the bytes, as a relation on the whole text: they
//! are the UTF-8 of characters that are white space, comments and tokens, each the longest at its place. `specs/Faults`
//! says which faults are met in bytes, and which of them is the first. Neither speaks of how they are read.
//! `one_reading` is the law that bytes have one list of tokens, or one fault. `specs/Reading` is what the functions of
//! the reader say to one another.
//!
//! Read `token`, `name`, `specs/Characters`, `specs/Spelling`, `specs/Lexemes`, `specs/Places`, `specs/Tokens`,
//! `specs/Faults`, then `law`; and of the code `lexeme`, `scan` with `string`, `place` and `reader`.
#![tactic(auto)]

mod characters;
mod error;
mod keyword;
mod law;
mod lexeme;
mod name;
mod number;
mod operator;
mod place;
mod reader;
mod scan;
mod string;
mod text;
mod token;

pub use error::TokenError;
pub use law::one_reading;
pub use name::Name;
pub use reader::tokens;
pub use token::{Keyword, Operator, Token, TokenKind};
