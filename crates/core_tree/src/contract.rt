use crate::{Formula, SetExpr, Text, Ty};
use sqlite_items::Items;

/// Locations of objects that were there at entry, which may differ afterwards.
#[derive(Drop)]
pub enum Modified {
    /// The field of this name of each member.
    Field(SetExpr, Text),
    /// All elements of each array among the members.
    Elements(SetExpr),
}

/// New objects that may be reached afterwards.
#[derive(Drop)]
pub enum Added {
    /// At most `count` instances of exactly the class with this number.
    Class {
        class: u32,
        count: u32,
    },
    /// At most `count` arrays of `length` elements of this type.
    Array {
        element: Ty,
        length: u32,
        count: u32,
    },
}

/// The contract of a method.
#[derive(Drop)]
pub struct Contract {
    /// The least and the greatest int that a fallback may choose.
    pub lo: i32,
    pub hi: i32,
    /// What must hold at entry.
    pub required: Option<Formula>,
    /// What may differ afterwards, read at entry. All else stays.
    pub modifies: Items<Modified>,
    pub adds: Items<Added>,
    /// At most how many steps a body may take.
    pub within: Option<u32>,
    /// What holds between the state at entry and the state afterwards.
    pub ensured: Formula,
}
