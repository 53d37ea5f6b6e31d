//! Members and constructors, checked and resolved: what rules 10 to 21 say of them, and the program of a file.
//!
//! Read `specs/Declarations`, `specs/Constants`, `specs/Bodies`, and `specs/Files`, whose `faults_of` and `program_of`
//! are what the crate is about.
#![tactic(auto)]

mod classes;
mod constants;
mod constructors;
mod declarations;
mod fields;
mod file;
mod main_method;
mod members;
mod methods;
mod modifiers;
mod own_fields;
mod parameters;
mod slots;
mod superclass;
mod types;

pub use file::{environment, resolve_file};
