//! What names, fields, calls and whole expressions denote, by symbols and scope alone: no rule is checked, and nothing
//! is resolved.
//!
//! Read `specs/Library`, `specs/Types` (which values fit which types), `specs/Lookups`, `specs/Members` (through what a
//! field or a method is named), `specs/Denotes`, whose `denotes_at` says what each kind of node denotes, and
//! `specs/Known` (whole expressions); then `denotation`, `through`, `known`, `assignability`, `library`,
//! `names`, `calls`, `types` and `expression`.
#![tactic(auto)]

pub mod assignability;
pub mod calls;
mod denotation;
mod expression;
mod known;
pub mod library;
pub mod names;
mod through;
pub mod types;

pub use denotation::{Denotation, Printing};
pub use expression::known_of;
pub use known::{Known, copy};
pub use through::Through;
