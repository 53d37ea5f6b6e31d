//! What operators make of ints, booleans and texts, for runs and for the values of constants.
//!
//! `specs/Operators` says what an operator makes of scalars, which are the values that aren't objects, and
//! `specs/Texts` which text is shown of one. Both the evaluation of a program and the rules for constants stand on
//! these definitions. Operators on ints and booleans take constant time and no memory.
//!
//! Read `scalar`, `scalar_ref` and `applied`, then `ints`, `booleans` and `operators`, then `concatenation` and
//! `update`.
#![tactic(auto)]

mod applied;
mod booleans;
mod concatenation;
mod ints;
mod operators;
mod scalar;
mod scalar_ref;
mod update;

pub use applied::Applied;
pub use booleans::equality_value;
pub use concatenation::concatenated;
pub use operators::{binary_value, unary_value};
pub use scalar::Scalar;
pub use scalar_ref::ScalarRef;
pub use update::binary_op;
