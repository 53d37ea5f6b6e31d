//! Tokens as a list that is read from its front, identifiers, types and parameters, and what a reader answers.
//!
//! A reader is a function on lists of numbered tokens (`specs/Outcome`): it gives a tree and the tokens after it, or
//! says that no tree is written there, or only trees that are too high. `Tokens` is such a list as a value, and
//! `specs/Reads` says that a method on it does what a reader does. `proofs/` has what is known of readers one after
//! the other, for the crates above, whose trees are larger.
//!
//! Read `name`, `place`, `fault`, `refusal`, `error`; the files of `specs/` in their order; then `tokens`, `types`
//! and `params`.
#![tactic(auto)]

mod error;
mod fault;
mod name;
mod params;
mod place;
mod refusal;
mod tokens;
mod types;

pub use error::ParseError;
pub use fault::{CheckError, Fault};
pub use name::{BaseType, Ident, ParamTree, TypeTree};
pub use place::{TokenPlace, places};
pub use refusal::Refusal;
pub use tokens::Tokens;
pub use types::castable;
