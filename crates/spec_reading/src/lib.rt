//! Reading of contracts and spec methods as functions on lists of tokens, and the proof that these functions find
//! exactly the trees of spec_trees.
//!
//! The contracts of the reader cite the functions in `specs/`; nothing here runs but the type that says what a token
//! does after a term. `proofs/` shows that each tree that is written is read, that what is read is written, and that no
//! tokens are two trees.
//!
//! Read `term_infix`, the files of `specs/` in their order, then the laws: `term_law` and `contract_law`.
#![tactic(auto)]

mod contract_law;
mod term_infix;
mod term_law;

pub use contract_law::{
    contract_height_is_least, contracts_are_read, one_contract, one_spec_method,
    spec_height_is_least, spec_methods_are_read, spec_methods_are_seen,
};
pub use term_infix::TermInfix;
pub use term_law::{one_term, term_height_is_least, terms_are_read};
