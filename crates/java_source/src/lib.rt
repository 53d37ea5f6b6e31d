//! From the bytes of a source to its resolved program: tokens, tree, class table, names and types, thrown exceptions.
//!
//! The one call is `program_of`. `specs/Accepted` says which sources are accepted and which program each has, and
//! `specs/Refused` what each refusal says of the bytes.
#![tactic(auto)]

mod place;
mod refusal;
mod source;

pub use refusal::{SourceError, SourceRefusal, TokenKindError};
pub use source::{MOST_BYTES, program_of};
