//! What the program `solve_dimacs` does with its words, its files and its output: it reads clauses in the DIMACS form,
//! solves them, and writes the answer.
//!
//! Its one public call is `run`. Read `command`, `clause_reader`, `dimacs`, `answer` and `running`.
#![tactic(auto)]

mod answer;
mod clause_reader;
mod command;
mod dimacs;
mod running;

pub use dimacs::DimacsError;
pub use running::{Failure, run};
