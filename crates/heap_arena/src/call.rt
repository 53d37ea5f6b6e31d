use crate::Cell;
use sqlite_items::Items;

/// A call of the method with this number, its object, where it has one, and its arguments.
#[derive(Drop)]
pub struct Call<R> {
    pub method: u32,
    pub this: Option<R>,
    pub args: Items<Cell<R>>,
}
