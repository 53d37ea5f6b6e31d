//! The operations of Java's 32-bit `int`, each stated by whole numbers.
//!
//! `specs/Int32` says what the operations mean: each is `wrap` of the operation on whole numbers, where `wrap` takes
//! the number from -2^31 to 2^31 - 1 that is congruent modulo 2^32. The laws in `law` show that these words mean
//! what their comments say. No call takes memory.
//!
//! Read `specs/Int32`, then `arithmetic`, `division`, `shift`, `bitwise` and `text`.
#![tactic(auto)]

mod arithmetic;
mod bitwise;
mod division;
mod law;
mod shift;
mod text;

pub use arithmetic::{add, mul, neg, sub};
pub use bitwise::{and, not, or, xor};
pub use division::{Zero, div, rem};
pub use law::{digits_of_a_number, rounding, wrapping};
pub use shift::{shl, shr, ushr};
pub use text::{Digits, decimal};
