//! Clauses of propositional logic, derivations by resolution, and certificates.
//!
//! A clause is a set of literals, and a literal a variable's number or its negation. Here stand the types, what it
//! means that an assignment satisfies clauses, that a line of a derivation makes a clause of earlier ones, and that
//! a clause adds to what unit propagation finds (`specs/`). The other crates on clauses stand on these definitions.
//!
//! Used above: `Clauses::satisfied` says whether an assignment satisfies the clauses, and `write_dimacs` writes them
//! in the DIMACS form.
//!
//! Read `literal`, `clause`, `resolvent`, `clauses`, then `derivation`, `certificate`, and `dimacs`.
#![tactic(auto)]

mod certificate;
mod clause;
mod clauses;
mod derivation;
mod dimacs;
mod literal;
mod resolvent;

pub use certificate::{CellBits, Certificate};
pub use clause::Clause;
pub use clauses::Clauses;
pub use derivation::{Cut, Line};
pub use dimacs::write_dimacs;
pub use literal::negated;
