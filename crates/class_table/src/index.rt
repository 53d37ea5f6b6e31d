//! What is looked up in the classes, made once.

use crate::declaration::Declaration;
use crate::keys::Keys;
use crate::row::Signature;
use java_tokens::Name;
use sqlite_items::Items;

/// What is looked up in some classes, by their numbers.
#[derive(Drop)]
pub struct Lookups {
    pub lines: Items<Items<u32>>,
    pub fields: Items<Keys<Name>>,
    pub methods: Items<Keys<Signature>>,
    pub counts: Items<usize>,
}

/// The classes of a program by their numbers, with what is looked up in them.
#[derive(Drop)]
pub struct Index {
    /// The names of the classes.
    pub names: Keys<Name>,
    pub declared: Items<Declaration>,
    /// The line of each class.
    pub lines: Items<Items<u32>>,
    /// The names of the fields that each class declares, in order.
    pub fields: Items<Keys<Name>>,
    /// What the methods that each class declares are called by, in order.
    pub methods: Items<Keys<Signature>>,
    /// How many instance fields each class declares.
    pub counts: Items<usize>,
}
