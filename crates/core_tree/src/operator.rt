/// An operator on one value (JLS 15.15).
#[derive(Clone, Copy, Debug, PartialEq, Eq, Drop)]
pub enum UnOp {
    /// `+` on an int.
    Plus,
    /// `-` on an int.
    Neg,
    /// `!` on a boolean.
    Not,
    /// `~` on an int.
    Flip,
}

/// An operator on two values, both of which are evaluated, the left one first (JLS 15.17 to 15.22).
#[derive(Clone, Copy, Debug, PartialEq, Eq, Drop)]
pub enum BinOp {
    Add,
    Sub,
    Mul,
    Div,
    Rem,
    /// `<<`.
    Shl,
    /// `>>`.
    Shr,
    /// `>>>`.
    Ushr,
    /// `&` on two ints or on two booleans.
    BitAnd,
    /// `|` on two ints or on two booleans.
    BitOr,
    /// `^` on two ints or on two booleans.
    BitXor,
    Eq,
    Ne,
    Lt,
    Le,
    Gt,
    Ge,
}

/// The operator of a compound assignment (JLS 15.26.2).
#[derive(Clone, Copy, Debug, PartialEq, Eq, Drop)]
pub enum UpOp {
    Add,
    Sub,
    Mul,
    Div,
    Rem,
    Shl,
    Shr,
    Ushr,
    BitAnd,
    BitOr,
    BitXor,
    /// `+=` on a String.
    Concat,
}
