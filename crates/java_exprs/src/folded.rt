use primitive_operators::Scalar;

/// What an expression is as a part of a constant's initialiser.
#[derive(Drop)]
pub enum Folded {
    /// It has this value.
    Gives(Scalar),
    /// Its evaluation divides by zero, or makes or gives a text that is too long for a constant.
    Fails,
    /// It is a part that an initialiser may have, and has no value: it breaks another rule, or names a constant without
    /// a value.
    Unknown,
    /// A class, before a dot.
    Class(u32),
    /// No initialiser of a constant has such a part.
    Other,
}
