use crate::{Cell, Kind};
use sqlite_items::Items;

/// An object: its kind, and its fields or elements in order.
#[derive(Drop)]
pub struct Object<R> {
    pub kind: Kind,
    pub cells: Items<Cell<R>>,
}
