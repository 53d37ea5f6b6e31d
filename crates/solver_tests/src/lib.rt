//! Tests of the solver and of the circuits. They stand here since a crate that has tests is proved twice.
//!
//! `clauses` tests `clause_form`, `solving` tests `clause_solver`, `dimacs` tests `dimacs_run`, `nets` tests
//! `gate_net`, `bits` tests `bit_gates` with the numbers in `bits/pairs` and what plain arithmetic makes of them in
//! `bits/arithmetic`, and `relations` tests `relation_gates` with what a plain computation makes in `relations/plain`.
#![tactic(auto)]

#[cfg(test)]
mod bits;
#[cfg(test)]
mod clauses;
#[cfg(test)]
mod dimacs;
#[cfg(test)]
mod nets;
#[cfg(test)]
mod relations;
#[cfg(test)]
mod solving;
