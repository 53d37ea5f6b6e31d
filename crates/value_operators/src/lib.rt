//! What operators, literals, concatenations and prints make of values.
//!
//! The definitions are those of `evaluation`'s `specs/Values`, and each call is total: operands of other types than the
//! node asks for give `NoMeaning`. Operators on ints, booleans and objects take constant time and no memory; characters
//! are copied only where a new text is made. `primitive_operators` has the operators on values that aren't objects.
//!
//! Read `operators` with `equality` and `scalars`, then `texts` and `printing`.
#![tactic(auto)]

mod equality;
mod operators;
mod printing;
mod scalars;
mod texts;

pub use operators::{binary_value, unary_value, update_value};
pub use printing::print_bytes;
pub use texts::{concatenated, literal, text_equals, text_length};
