//! Finds an assignment that satisfies clauses, or derives clauses that show that there is none.
//!
//! `solve` decides literals, propagates them along the occurrences of each literal, and learns a clause from each
//! conflict. It logs the resolution chain of each clause that it learns, so its answers need not be trusted: an
//! assignment can be tried, and a derivation replayed by `derivation_check`.
//!
//! Read `trail` and `occurrences`, `propagate` and `learn`, then `search` with `descend` and `turn`, and `solver` with
//! its answers in `solved`. `order` decides how long a search takes, and no answer depends on it.
#![tactic(auto)]

mod descend;
mod learn;
mod occurrences;
mod order;
mod propagate;
mod search;
mod solved;
mod solver;
mod trail;
mod turn;
mod values;

pub use solved::Solved;
pub use solver::solve;
