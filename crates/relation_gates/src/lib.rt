//! Sets and relations over finitely many objects in a net of gates, with closures by paths of any length.
//!
//! A row of nodes is a set of objects: the node at an object's place says whether it is a member. A matrix, with a row
//! for each object, is a relation. Each call adds gates to a net; its contract says which set or relation the result
//! is in the net and in each net that continues it, whatever the inputs' values.
//!
//! Read `matrix`, `sets`, `product`, `turned`, then `paths`.
#![tactic(auto)]

mod matrix;
mod paths;
mod product;
mod sets;
mod turned;

pub use matrix::{Matrix, Row};
pub use paths::closure;
pub use product::{image, join};
pub use sets::{inter, minus, row_inter, row_minus, row_union, union};
pub use turned::converse;
