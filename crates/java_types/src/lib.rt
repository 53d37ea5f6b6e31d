//! The program of a file that breaks none of rules 10 to 21, and that it is well typed.
//!
//! The rules are those of `java_members`, the typing is the law of `typing_law`; the calls put them together.
#![tactic(auto)]

mod file;

pub use file::{resolve, resolve_in};
