//! The trees of contracts and of spec methods, and which tokens each of them is.
//!
//! The trees keep parentheses and the order of everything that is written, so that each contract has one tree. A tree
//! carries the number of a token, counted from 0, where a fault may have to name it: an identifier, a number, and a
//! node that begins with a token of its own. `specs/Clauses` says which tokens a contract or a spec method is.
//!
//! Inside contracts and the terms of spec methods the words of `word` are no identifiers.
//!
//! Read `word`, `operator`, `link`, `term`, `contract`; the files of `specs/` in their order; then `height`.
#![tactic(auto)]

mod contract;
mod height;
mod link;
mod operator;
mod term;
mod word;

pub use contract::{AddedTree, BoundTree, ContractTree, IntsTree, NumberTree, SpecTree};
pub use link::LinkTree;
pub use operator::{LinkOp, PathOp, PrefixOp, Quantifier, TermOp};
pub use term::TermTree;
pub use word::{ContractWord, is_word, word_of};
