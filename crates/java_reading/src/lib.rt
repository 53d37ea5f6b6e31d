//! Reading of source files as functions on lists of tokens, and the proof that these functions find exactly the trees
//! of java_syntax.
//!
//! The parser's contracts cite the functions in `specs/`; nothing here runs but the type that says what a token does
//! after an operand. `proofs/` shows that each tree that is written is read, that what is read is written, and that
//! no tokens are two trees.
//!
//! Read `infix`, the files of `specs/` in their order, then the laws: `expression_law`, `statement_law` and `file_law`.
#![tactic(auto)]

mod expression_law;
mod file_law;
mod infix;
mod statement_law;

pub use expression_law::{casts_are_seen, expressions_are_read, height_is_least, one_expression};
pub use file_law::{file_height_is_least, files_are_read, one_file};
pub use infix::Infix;
pub use statement_law::{declarations_are_seen, one_statement};
