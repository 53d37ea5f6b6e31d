use java_syntax::BinaryOp;

/// What a token does after an operand (JLS 15).
#[derive(Clone, Copy, Debug, PartialEq, Eq)]
pub enum Infix {
    /// It is an operator between two operands.
    Binary(BinaryOp),
    /// `instanceof`
    InstanceOf,
    /// `?`
    Question,
    /// `.`
    Dot,
    /// `[`
    Bracket,
    /// `(`, which makes a call of a name
    Paren,
    /// Nothing: an expression ends before it.
    Other,
}
