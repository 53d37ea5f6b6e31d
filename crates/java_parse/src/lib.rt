//! Reads the tree of a source file from its tokens.
//!
//! The one public contract is that of `parse`: it gives the tree of height at most 200 that the tokens spell, which is
//! the only one, or says why there is none. `specs/Answer` has its words. Each reader is proved to give what a reading
//! function of java_reading gives on the same tokens (token_reading's `specs/Reads`); what these find is proved there.
//!
//! Read `lookahead`, `infix`, `grammar`, `prefix`, `climb`, `signs`, `simple`, `statements`, `statement`, `clauses`,
//! `header`, `member`, `class`, then `entry`.
#![tactic(auto)]

mod class;
mod clauses;
mod climb;
mod entry;
mod grammar;
mod header;
mod infix;
mod lookahead;
mod member;
mod nodes;
mod prefix;
mod signs;
mod simple;
mod statement;
mod statement_nodes;
mod statements;

pub use entry::parse;
pub use token_reading::ParseError;
