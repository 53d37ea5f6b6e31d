ghost use Rattle.std.specs.Prelude.{◌≡◌, IfOk};

use core_tree::{OutOfMemory, Ty};
use std::alloc::Global;

/// What an object is.
#[derive(Drop)]
pub enum Kind {
    /// An instance of the class with this number. Its cells are its fields, the inherited ones first.
    Instance(u32),
    /// An array with elements of this type. Its cells are its elements.
    Array(Ty),
}

impl Kind {
    /// The same kind once more.
    pub fn copy(&self, alloc: Global) -> Result<Kind, OutOfMemory>
        ensures { IfOk result (λ kind. kind ≡ self.now) }
    {
        match self {
            Kind::Instance(class) => Ok(Kind::Instance(*class)),
            Kind::Array(elements) => Ok(Kind::Array(elements.copy(alloc)?)),
        }
    }
}
