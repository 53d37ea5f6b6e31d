//! Statements, checked and resolved: what rules 10, 11, 14, 17, 18, 20 and 21 say of them (JLS 14).
//!
//! Read `specs/Effects` (what is known of a statement, and how statements follow one another) and `specs/Statements`
//! (each question as a table over one node); then `statements`, whose `body` checks the statements of a body, with a
//! module for each family of nodes.
#![tactic(auto)]

mod assignments;
mod blocks;
mod conditions;
pub mod exceptions;
mod expression_statements;
mod jumps;
mod locals;
mod loops;
pub mod statements;
mod tries;
