ghost use Rattle.std.specs.Prelude.{◌≡◌, ℕ, List, IfOk, IsErr};
ghost use Rattle.heap_arena.specs.declared.cell.Cell.TheVariants as value;

use core_tree::{OutOfMemory, Text};

/// A value that a field, an element or a local holds; `R` stands for objects.
#[derive(Drop)]
pub enum Cell<R> {
    Int(i32),
    Bool(bool),
    Null,
    Ref(R),
    Text(Text),
}

impl<R: Copy> Cell<R> {
    /// The same value once more; a text is shared. Only a text takes memory.
    pub fn copy(&self) -> Result<Cell<R>, OutOfMemory>
        ensures value { IfOk result (λ cell. cell ≡ self.now) }
        ensures memory { IsErr result → (text : List ℕ) × (self.now ≡ value.Text text) }
    {
        match self {
            Cell::Int(n) => Ok(Cell::Int(*n)),
            Cell::Bool(b) => Ok(Cell::Bool(*b)),
            Cell::Null => Ok(Cell::Null),
            Cell::Ref(object) => Ok(Cell::Ref(*object)),
            Cell::Text(text) => Ok(Cell::Text(text.share()?)),
        }
    }
}
