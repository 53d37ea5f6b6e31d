use core_tree::What;
use heap_arena::Cell;

/// How a part of a program ends (JLS 14.1, 15.6). A reference is the position of its object. `Spent`, `Full` and
/// `Stuck` end the run: no `catch` and no `finally` sees them.
#[derive(Drop)]
pub enum Outcome {
    /// An expression has this value. A call of a method without a result has the value null, which no node reads.
    Value(Cell<u32>),
    /// A statement ended normally.
    Normal,
    /// A `return`, with a value where it has one.
    Return(Option<Cell<u32>>),
    Break,
    Continue,
    /// An exception: the position of its object.
    Throw(u32),
    /// No step was left at the entry of a node.
    Spent,
    /// There was no room for a cell or for a text.
    Full(What),
    /// The node has no meaning. No part of a well-typed program ends so.
    Stuck,
}
