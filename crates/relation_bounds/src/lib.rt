//! What is asked when a contracted body fails, and what was answered.
//!
//! So far it has the types of the journal alone: an entry for each answer, in the order of asking.
//!
//! Read `journal`.
#![tactic(auto)]

mod journal;

pub use journal::{Answer, CellValue, Entry, Refusal, Why};
