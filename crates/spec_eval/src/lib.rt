//! What contracts say of a state.
//!
//! So far it has the verdict on a body alone: whether the state in which it returned meets the contract, and else what
//! is broken first.
//!
//! Read `verdict`.
#![tactic(auto)]

mod verdict;

pub use verdict::{Grown, Verdict};
