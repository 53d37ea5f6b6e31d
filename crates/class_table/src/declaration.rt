//! What a class declares by itself.

use crate::row::{FieldRow, MakerRow, MethodRow};
use core_tree::Shared;
use java_tokens::Name;
use sqlite_items::Items;

/// What a class declares by itself.
#[derive(Drop)]
pub struct Declaration {
    pub name: Name,
    /// The number of the superclass; `None` for `Object`, and where the superclass is unknown.
    pub parent: Option<u32>,
    /// The fields, without their places.
    pub fields: Items<FieldRow>,
    pub methods: Shared<Items<MethodRow>>,
    pub makers: Shared<Items<MakerRow>>,
    /// The number of the name's token, 0 for what is built in.
    pub at: u32,
}
