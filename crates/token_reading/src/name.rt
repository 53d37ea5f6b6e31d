ghost use Rattle.std.specs.Prelude.{◌≡◌};
ghost use Rattle.token_reading.specs.Height.{type_height};

use java_tokens::Name;

/// An identifier, with the number of its token (JLS 3.8).
#[derive(Drop)]
pub struct Ident {
    pub at: u32,
    pub name: Name,
}

/// A type as it is written: a base with pairs of brackets after it (JLS 4.2, 4.3).
#[derive(Drop)]
pub struct TypeTree {
    pub base: BaseType,
    /// How many pairs of brackets.
    pub dimensions: u32,
}

impl TypeTree {
    /// How high the type is: each of its pairs of brackets counts one.
    pub fn height(&self) -> u32
        ensures { result ≡ type_height self.now }
    {
        self.dimensions
    }
}

/// A type without brackets.
#[derive(Drop)]
pub enum BaseType {
    Int,
    Boolean,
    Class(Ident),
}

/// A parameter (JLS 8.4.1).
#[derive(Drop)]
pub struct ParamTree {
    pub ty: TypeTree,
    pub name: Ident,
}
