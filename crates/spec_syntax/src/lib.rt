//! Reads the trees of contracts and spec methods from their tokens.
//!
//! `parse_contract` gives the contract that stands before a method's body, and `parse_spec_method` the spec method that
//! begins at a token: each is the only one, or the answer says why there is none. `specs/Answer` has their words.
//! `contract` and `spec_method` do the same for a parser that goes on after them, and `sees_spec_method` looks ahead for
//! the second. Each reader is proved to give what a reading function of spec_reading gives on the same tokens
//! (token_reading's `specs/Reads`); what these find is proved there.
//!
//! Read `levels`, `infix`, `name`, `link_grammar`, `term_grammar`, `term_prefix`, `term_climb`, `clause`, `contracts`,
//! `spec_methods`, then `entry`.
#![tactic(auto)]

mod clause;
mod contracts;
mod entry;
mod infix;
mod levels;
mod link_grammar;
mod name;
mod nodes;
mod spec_methods;
mod term_climb;
mod term_grammar;
mod term_prefix;

pub use contracts::contract;
pub use entry::{parse_contract, parse_spec_method};
pub use spec_methods::{sees_spec_method, spec_method};
pub use spec_trees::{
    AddedTree, BoundTree, ContractTree, IntsTree, LinkTree, NumberTree, SpecTree, TermTree,
};
pub use token_reading::ParseError;
