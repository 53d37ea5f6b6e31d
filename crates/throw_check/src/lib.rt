//! Rule 23: a checked exception is neither caught nor declared.
//!
//! The one public contract is that of `check`: Ok exactly where the rule is kept, and a fault only where it is broken
//! at that token. Read `specs/Classes` (which classes are checked, and what covers one), `specs/Points` and
//! `specs/Statements` (where an expression and a statement may throw), `specs/Files`, whose `faults_of` is what the
//! crate is about, and `specs/Walks` (what handles an exception at a place); then `handlers`, `expression` with
//! `calls`, `statements` with `locals`, `jumps`, `blocks`, `loops` and `tries`, and `declared`, `bodies` and `file`.
#![tactic(auto)]

mod blocks;
mod bodies;
mod calls;
mod declared;
mod expression;
mod file;
mod handlers;
mod jumps;
mod locals;
mod loops;
mod statements;
mod tries;

pub use file::{check, check_file};
