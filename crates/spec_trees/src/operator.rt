/// An operator before its operand.
#[derive(Clone, Copy, Debug, PartialEq, Eq)]
pub enum PrefixOp {
    /// `-I`
    Negate,
    /// `#S`: how many members.
    Count,
    /// `!F`
    Not,
    /// `some S`: at least one member.
    Exists,
    /// `no S`
    No,
    /// `one S`: exactly one.
    One,
    /// `lone S`: at most one.
    Lone,
}

/// An operator between two terms.
#[derive(Clone, Copy, Debug, PartialEq, Eq)]
pub enum TermOp {
    /// `<=>`
    Iff,
    /// `=>`
    Implies,
    Or,
    And,
    Equal,
    NotEqual,
    Less,
    LessEqual,
    Greater,
    GreaterEqual,
    /// `S in T`
    In,
    /// `+`: of integers, or the union of sets.
    Plus,
    /// `-`: of integers, or the difference of sets.
    Minus,
    /// `S & T`
    Meet,
    /// `*`
    Times,
}

/// What binds a variable over the members of a set.
#[derive(Clone, Copy, Debug, PartialEq, Eq)]
pub enum Quantifier {
    All,
    /// `some`
    Exists,
    No,
    /// `sum`
    Sum,
}

/// An operator between two relations.
#[derive(Clone, Copy, Debug, PartialEq, Eq)]
pub enum LinkOp {
    /// `+`
    Union,
    /// `-`
    Minus,
    /// `&`
    Meet,
    /// `.`: one after the other.
    Join,
}

/// An operator before a relation.
#[derive(Clone, Copy, Debug, PartialEq, Eq)]
pub enum PathOp {
    /// `^`: nonempty paths.
    Paths,
    /// `*`: paths, the empty one too.
    PathsOrSame,
    /// `~`
    Converse,
}
