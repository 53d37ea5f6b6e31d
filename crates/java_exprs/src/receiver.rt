use java_denotes::Through;

/// Where a field or a method is looked up.
#[derive(Clone, Copy, Debug, PartialEq, Eq, Drop)]
pub struct Receiver {
    /// The number of the first token of the expression that names it.
    pub at: u32,
    /// Through what it is named.
    pub through: Through,
    /// The number of the class in which it is looked up.
    pub class: u32,
}
