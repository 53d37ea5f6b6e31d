ghost use Rattle.std.specs.Prelude.{◌≡◌, IfOk};

use crate::OutOfMemory;
use sqlite_items::Boxed;
use std::alloc::Global;

/// A type (JLS 4). A variable, a field or an element has one of the first five. `Null` is the type of `null` alone, and
/// `Void` stands for the result of a method that has none.
#[derive(Drop)]
pub enum Ty {
    Int,
    Bool,
    /// The type String.
    Text,
    /// The class with this number.
    Class(u32),
    /// Arrays whose elements have this type.
    Array(Boxed<Ty>),
    Null,
    Void,
}

impl Ty {
    /// The same type once more.
    pub fn copy(&self, alloc: Global) -> Result<Ty, OutOfMemory>
        ensures { IfOk result (λ ty. ty ≡ self.now) }
    {
        match self {
            Ty::Int => Ok(Ty::Int),
            Ty::Bool => Ok(Ty::Bool),
            Ty::Text => Ok(Ty::Text),
            Ty::Class(class) => Ok(Ty::Class(*class)),
            Ty::Array(elements) => {
                let elements = elements.get().copy(alloc)?;
                Ok(Ty::Array(Boxed::new(alloc, elements)?))
            }
            Ty::Null => Ok(Ty::Null),
            Ty::Void => Ok(Ty::Void),
        }
    }
}
