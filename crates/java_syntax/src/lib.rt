//! The trees of source files, and which tokens each of them is.
//!
//! The trees keep parentheses and the order of everything that is written, so that each source has one tree. A tree
//! carries the number of a token, counted from 0, where a fault may have to name it: an identifier, and a node that
//! begins with a token of its own. The tree of a file has the places of its tokens, so that such a number gives a line
//! and a column. `specs/Spells` says which tokens a tree is.
//!
//! Identifiers, types, parameters, the places of tokens and the faults of the checks are those of token_reading.
//!
//! Read `operator`, `expression`, `statement`, `class`, then `height`.
#![tactic(auto)]

mod class;
mod expression;
mod height;
mod operator;
mod statement;

pub use class::{ClassTree, FieldTree, FileTree, MakerTree, Member, MethodTree, Modifier, Mods};
pub use expression::Expr;
pub use operator::{AssignOp, BinaryOp, Fix, StepOp, UnaryOp};
pub use statement::{CatchTree, LocalTree, Stmt};
pub use token_reading::{BaseType, CheckError, Fault, Ident, ParamTree, TokenPlace, TypeTree};
