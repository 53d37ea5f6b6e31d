use crate::term::TermTree;
use sqlite_items::Items;
use token_reading::{Ident, ParamTree, TypeTree};

/// A number without a sign, with the number of its token.
#[derive(Drop)]
pub struct NumberTree {
    pub at: u32,
    pub value: u64,
}

/// A number with a `-` before it, or without.
#[derive(Drop)]
pub struct BoundTree {
    pub is_negative: bool,
    pub number: NumberTree,
}

/// `ints lo..hi`
#[derive(Drop)]
pub struct IntsTree {
    pub low: BoundTree,
    pub high: BoundTree,
}

/// `n C`, in `adds`.
#[derive(Drop)]
pub struct AddedTree {
    pub count: NumberTree,
    pub class: Ident,
}

/// The contract of a method. A list of a clause that isn't there is empty.
#[derive(Drop)]
pub struct ContractTree {
    pub ints: Option<IntsTree>,
    /// Terms without operators but the dot.
    pub modifies: Items<TermTree>,
    pub adds: Items<AddedTree>,
    /// The number of the token `ensures`.
    pub at: u32,
    pub ensured: TermTree,
}

/// A spec method: `spec T p(T x) = t;`.
#[derive(Drop)]
pub struct SpecTree {
    /// The number of the token `spec`.
    pub at: u32,
    pub ty: TypeTree,
    pub name: Ident,
    pub params: Items<ParamTree>,
    pub term: TermTree,
}
