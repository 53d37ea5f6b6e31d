//! The resolved program: the numbered tree that a checked source becomes and that the machine runs.
//!
//! Names are gone from it, but for those that a report shows: a local, a field, a class, a method and a constructor are
//! numbers. A method may carry a resolved contract. `Text` is the text of a literal and of a run, shared and never
//! changed. What a program must meet so that it never gets stuck is `specs/WellTyped`, and `law` says that it goes on
//! to hold with other contracts.
//!
//! Read `ty`, `text`, `program`, `stmt`, `expr`, `operator`, `built_in`, `contract` and `terms`, then the files of
//! `specs/` in their order. `proofs/WorkedPrograms`, `proofs/WorkedDispatch`, `proofs/WorkedTerms` and
//! `proofs/WorkedContracts` compute programs and contracts against them, well typed ones and others.
#![tactic(auto)]

mod built_in;
mod contract;
mod error;
mod expr;
pub mod forms;
mod law;
mod operator;
mod program;
mod shared;
mod stmt;
mod terms;
mod text;
mod ty;
mod what;

pub use built_in::{BuiltIn, FIRST_CLASS};
pub use contract::{Added, Contract, Modified};
pub use error::OutOfMemory;
pub use expr::{Expr, Site};
pub use law::other_contracts_keep_a_program_well_typed;
pub use operator::{BinOp, UnOp, UpOp};
pub use program::{Class, Field, Maker, Method, Parent, Program};
pub use shared::Shared;
pub use stmt::{Catch, Stmt, Target};
pub use terms::{Formula, IntExpr, RelExpr, SetExpr};
pub use text::Text;
pub use ty::Ty;
pub use what::What;
