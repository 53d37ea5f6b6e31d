//! In a file that is spelled, each name that a member declares is a token of its own: what `typing_law` needs of the
//! tokens.
#![tactic(auto)]

mod law;

pub use law::names_have_own_tokens;
