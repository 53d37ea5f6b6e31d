//! Names of a Java file: what the file declares, with numbers and resolved types, and what a name means at a place.
//!
//! `symbols` makes the symbols of a checked class table; look-ups by name stand on `Symbols`, and the locals of a body
//! on `Scope`. Each look-up has one definition in `specs/`, and its contract says that it gives just that.
//!
//! Read `specs/Types`, `specs/Symbols` and `specs/Selectors` (what the symbols of a table are), `specs/Lookups`,
//! `specs/Chosen` and `specs/Scope` (what a look-up finds), `specs/Beginnings` and `specs/Refusals` (what a check
//! answers); then `symbol`, `numbering`, `types`, `selectors`, `fields`, `methods`, `makers`, `classes`, `lookups`,
//! `chosen`, `scope`, `first_scopes` and `beginning`.
#![tactic(auto)]

mod beginning;
mod built_in;
mod chosen;
mod classes;
mod fields;
mod first_scopes;
mod lookups;
mod makers;
mod methods;
mod mods;
mod numbering;
mod numbers;
mod scope;
mod selectors;
mod symbol;
mod types;

pub use beginning::{MakerBody, beginning_of};
pub use classes::symbols;
pub use first_scopes::{constant_scope, maker_scope, method_scope};
pub use lookups::is_accessible;
pub use mods::is_static;
pub use numbering::Numbering;
pub use numbers::following;
pub use scope::{Locals, Mark, Meaning, Scope};
pub use symbol::{
    ClassSymbol, FieldSymbol, Fields, MakerSymbol, Makers, MethodSymbol, Methods, Selector, Symbols,
};
pub use types::{
    answer_type, arrays, declared_type, exception_type, resolve_base, resolve_type, type_of,
};
