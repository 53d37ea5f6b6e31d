//! The program of a file that breaks no rule is well typed: the rules of `class_table` and `java_members`, which speak
//! of names and trees, and the typing of `core_tree`, which speaks of numbers and types, agree.
//!
//! The one contract is that of `programs_are_typed`; there is no other code here. The words of its proof are in
//! `specs`: what must be so between the symbols of a file and its program (`Agrees`), what the resolved form of an
//! expression must be (`Means`), and what is known of a scope (`Scopes`). That each name is a token of its own is the
//! law of `token_law`.
//!
//! Of the proofs read `WholeProgram`, which puts the parts together, and the list of these parts in `WholeLists`; then
//! `NodeKinds`, `Dots` and `Operators` (each kind of expression), `Exprs`, `BodyNodes` and `BodyParts` (each kind of
//! statement), `Stmts`, `Members`, and `FileAgrees` (the symbols of a file agree with its program).
#![tactic(auto)]

mod law;

pub use law::programs_are_typed;
