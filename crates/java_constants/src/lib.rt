//! The value of a constant's initialiser (JLS 15.29).
//!
//! The one public call is `fold`; what an initialiser is, is said in the definitions of `java_exprs` (`specs/Constants`
//! and `specs/Operators`).
#![tactic(auto)]

mod folding;
mod operators;
mod texts;
mod values;

pub use folding::fold;
