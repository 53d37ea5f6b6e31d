use spec_trees::TermOp;

/// What a token does after a term.
#[derive(Clone, Copy, Debug, PartialEq, Eq)]
pub enum TermInfix {
    /// It is an operator between two terms.
    Binary(TermOp),
    /// `.`
    Dot,
    /// `(`, which makes a call of a name.
    Paren,
    /// `:`, which makes a variable of a name.
    Colon,
    /// Nothing: a term ends before it.
    Other,
}
