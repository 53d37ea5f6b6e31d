//! What is known of an expression by symbols and scope alone.

ghost use Rattle.std.specs.Prelude.{◌≡◌, IfOk, Some};
ghost use Rattle.std.specs.Option.{option_copied};
ghost use Rattle.java_denotes.specs.Members as of;
ghost use Rattle.java_denotes.specs.Denotes as denotes;

use crate::denotation::Denotation;
use core_tree::Ty;
use std::alloc::{AllocError, Global};

/// What is known of an expression.
#[derive(Drop)]
pub struct Known {
    /// The number of its first token.
    pub at: u32,
    /// What it denotes; `None` where a name that decides it is unknown.
    pub denotes: Option<Denotation>,
}

impl Known {
    /// A value of this type.
    pub fn value(at: u32, ty: Ty) -> Known
        ensures { result ≡ record { at = at; denotes = Some (Denotation.Value ty) } }
    {
        Known {
            at,
            denotes: Some(Denotation::Value(ty)),
        }
    }

    /// The type of its value; `None` where it has none.
    pub fn value_type(&self) -> Option<&Ty>
        ensures { option_copied result ≡ of.value_type self.now.denotes }
    {
        match &self.denotes {
            Some(Denotation::Value(ty)) => Some(ty),
            _ => None,
        }
    }

    /// Its value alone, as parentheses have it.
    pub fn into_value(self) -> Option<Denotation>
        ensures { result ≡ denotes.value (of.value_type self.denotes) }
    {
        match self.denotes {
            Some(Denotation::Value(ty)) => Some(Denotation::Value(ty)),
            _ => None,
        }
    }
}

/// The same type once more. `AllocError` where memory runs out.
pub fn copy(alloc: Global, ty: &Ty) -> Result<Ty, AllocError>
    ensures { IfOk result (λ copy. copy ≡ ty.now) }
{
    match ty.copy(alloc) {
        Ok(copy) => Ok(copy),
        Err(_) => Err(AllocError),
    }
}
