//! Which class is below which, and which type a value may have where a variable has another one (JLS 4.10, 5.2).
//!
//! The definitions are those of `core_tree`'s `specs/Types`, over the classes of any program, also of one in which a
//! class is its own ancestor. Nothing here takes memory.
//!
//! Read `subclass`, then `assignable`. `proofs/Lines` opens the first definition by one step.
#![tactic(auto)]

mod assignable;
mod subclass;

pub use assignable::{is_assignable, kind_fits};
pub use subclass::is_subclass;
