//! Whole numbers in a net of gates, without loss.
//!
//! `Bits` are nodes whose values are a number in two's complement, with a bound on its magnitude that gives the
//! width: the least one at which every number within the bound fits. So no sum is ever cut off.
//!
//! Used above: each call adds gates to a net and gives the bits of a result; its contract says which number these
//! mean in the net and in each net that continues it, whatever the inputs' values, and how many nodes it adds at most.
//!
//! Read `bits`, `digits`, then `constants`, `negation`, `arithmetic`, `compare`, `product` and `total`.
#![tactic(auto)]

mod arithmetic;
mod bits;
mod compare;
mod constants;
mod digits;
mod negation;
mod product;
mod total;

pub use arithmetic::{add, minus, neg};
pub use bits::{Bits, width};
pub use compare::{equal, less};
pub use constants::constant;
pub use product::times_constant;
pub use total::{count, sum};
