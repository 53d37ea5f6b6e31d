//! Expressions of a file, checked and resolved: what it resolves to, and which of the rules 10
//! to 16, 19 and 21 it breaks.
//!
//! The one public contract is that of `expression::expr`, `Checks (attr env scope e)`. Read `specs/Attr` (what is known
//! of an expression), `specs/Denotes`, `specs/Rules` and `specs/Resolved` (each question as a table over one node), and
//! `specs/Checks`; then `expression`, with a module for each family of nodes: `literals`, `names`, `fields`, `calls`,
//! `creation`, `operators`, `unary`, `casts`, `simple`.
#![tactic(auto)]

pub mod arguments;
mod callee;
mod calls;
pub mod casts;
mod constants;
mod creation;
mod environment;
pub mod expression;
pub mod fault;
mod fields;
mod folded;
pub mod forms;
mod invocation;
mod library_calls;
pub mod literals;
mod members;
mod names;
pub mod operators;
mod qualifier;
mod receiver;
mod simple;
mod typed;
pub mod unary;
mod value;

pub use constants::Constants;
pub use environment::Environment;
pub use folded::Folded;
pub use typed::{Form, Typed};
pub use value::Value;
