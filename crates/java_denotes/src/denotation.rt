use core_tree::Ty;

/// What an expression denotes (JLS 6.5, 15.1).
#[derive(Drop)]
pub enum Denotation {
    /// A value of this type.
    Value(Ty),
    /// Nothing: a call of a method without a result.
    Nothing,
    /// The class with this number, before a dot.
    Class(u32),
    /// `System`
    System,
    /// `System.out`
    Output,
    /// A print, which is a statement.
    Print(Printing),
}

/// A print: whether a line feed follows, and whether it has an argument.
#[derive(Clone, Copy, Debug, PartialEq, Eq, Drop)]
pub struct Printing {
    pub ends_line: bool,
    pub has_argument: bool,
}
