ghost use Rattle.std.specs.Prelude.{◌≡◌, IfOk};
ghost use Rattle.primitive_operators.specs.Operators.{viewed};

use crate::ScalarRef;
use core_tree::{OutOfMemory, Text};

/// A value that isn't an object.
#[derive(Drop)]
pub enum Scalar {
    Int(i32),
    Bool(bool),
    Text(Text),
    Null,
}

impl Scalar {
    /// The same value; a text is shared. Only a text takes memory.
    pub fn share(&self) -> Result<Scalar, OutOfMemory>
        ensures { IfOk result (λ value. value ≡ self.now) }
    {
        match self {
            Scalar::Int(n) => Ok(Scalar::Int(*n)),
            Scalar::Bool(b) => Ok(Scalar::Bool(*b)),
            Scalar::Text(text) => Ok(Scalar::Text(text.share()?)),
            Scalar::Null => Ok(Scalar::Null),
        }
    }

    /// The same value, whose text is borrowed.
    pub fn by_ref(&self) -> ScalarRef
        ensures { viewed result ≡ self.now }
    {
        match self {
            Scalar::Int(n) => ScalarRef::Int(*n),
            Scalar::Bool(b) => ScalarRef::Bool(*b),
            Scalar::Text(text) => ScalarRef::Text(text),
            Scalar::Null => ScalarRef::Null,
        }
    }
}
