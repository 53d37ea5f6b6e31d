/// Through what a field or a method is named (JLS 15.11, 15.12).
#[derive(Clone, Copy, Debug, PartialEq, Eq, Drop)]
pub enum Through {
    /// Its name alone.
    This,
    /// `super`
    Super,
    /// A class before the dot.
    Class,
    /// An object before the dot.
    Object,
}
