//! Replays derivations by resolution, so that nobody has to trust whoever made them.
//!
//! `check` gives the clause of each line of a derivation, or names the first line that makes none. Each assignment
//! that satisfies the given clauses satisfies the derived ones, so a derivation of the empty clause shows that no
//! assignment satisfies them.
//!
//! Read `error`, then `replay`.
#![tactic(auto)]

mod error;
mod replay;

pub use error::CheckLogError;
pub use replay::check;

#[cfg(test)]
mod tests;
