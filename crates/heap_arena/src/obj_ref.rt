use std::marker::Model;

/// An object of a `CopyStore`. Contracts see it as its position.
#[derive(Clone, Copy, Debug, PartialEq, Eq)]
pub struct ObjRef {
    pub(crate) position: u32,
}

impl Model for ObjRef {
    ghost use Rattle.std.specs.Prelude.{ℕ};

    ghost Value = { ℕ };

    ghost view = { λ object. object.position };

    ghost inverse = { λ position. record { position = position } };
}
