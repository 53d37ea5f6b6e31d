//! The classes of a file, and the rules on their names, superclasses, fields, methods and constructors.
//!
//! Its one public contract is that of `table`: Ok exactly where none of the rules 1 to 9 is broken, and then with the
//! file's table; a fault only where that rule is broken at that token.
//!
//! Read `specs/Rules` (where each rule is broken), `specs/Table` and `specs/TableFacts` (what a table is, and what
//! holds of it); then `row`, `check`, `built_in`, `members`, `declaration`, `names`, `declare`, `lines`, `index`,
//! `fields`, `methods`, `overriding`, `limits`, `rows`; `keys` and `copies` serve them.
#![tactic(auto)]

mod built_in;
mod check;
mod copies;
mod declaration;
mod declare;
mod fields;
mod index;
mod keys;
mod limits;
mod lines;
mod members;
mod methods;
mod names;
mod overriding;
mod row;
mod rows;

pub use check::table;
pub use row::{ClassRow, ClassTable, FieldRow, Fields, MakerRow, MethodRow};
