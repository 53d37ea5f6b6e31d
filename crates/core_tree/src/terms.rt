//! The terms of contracts. A parameter is named by its number, a field by its name, and a bound variable by its depth,
//! the number of quantifiers and sums around the one that binds it.

use crate::{BinOp, Text};
use sqlite_items::Boxed;

/// A set of objects. Null is the empty set, and a reference the set of the one object.
#[cycle(terms)]
#[derive(Drop)]
pub enum SetExpr {
    This,
    Param(u32),
    /// `result`.
    Answer,
    Bound(u32),
    Null,
    /// The instances of this class and of those below it.
    Class(u32),
    /// The set as it was at entry.
    Old(Boxed<SetExpr>),
    Union(Boxed<SetExpr>, Boxed<SetExpr>),
    Minus(Boxed<SetExpr>, Boxed<SetExpr>),
    Meet(Boxed<SetExpr>, Boxed<SetExpr>),
    /// The objects to which an edge leads from a member.
    Image(Boxed<SetExpr>, RelExpr),
    /// The element at an index of each array among the members.
    Element(Boxed<SetExpr>, Boxed<IntExpr>),
}

/// A relation between objects.
#[derive(Drop)]
pub enum RelExpr {
    /// From an object to the value of its field of this name.
    Field(Text),
    /// A nonempty path.
    Paths(Boxed<RelExpr>),
    /// A path, also the empty one.
    PathsOrSame(Boxed<RelExpr>),
    Converse(Boxed<RelExpr>),
    Union(Boxed<RelExpr>, Boxed<RelExpr>),
    Minus(Boxed<RelExpr>, Boxed<RelExpr>),
    Meet(Boxed<RelExpr>, Boxed<RelExpr>),
    /// An edge of the first, then one of the second.
    Join(Boxed<RelExpr>, Boxed<RelExpr>),
}

/// A whole number. It doesn't wrap.
#[cycle(terms)]
#[derive(Drop)]
pub enum IntExpr {
    Literal(i64),
    Param(u32),
    /// `result`.
    Answer,
    /// A variable that a quantifier over numbers binds.
    Bound(u32),
    /// The number as it was at entry.
    Old(Boxed<IntExpr>),
    /// The sum of the fields of this name of the members.
    Field(Boxed<SetExpr>, Text),
    /// The number of members.
    Count(Boxed<SetExpr>),
    /// The sum over the members, each as the bound variable.
    Sum(Boxed<SetExpr>, Boxed<IntExpr>),
    Add(Boxed<IntExpr>, Boxed<IntExpr>),
    Minus(Boxed<IntExpr>, Boxed<IntExpr>),
    Neg(Boxed<IntExpr>),
    Times(i64, Boxed<IntExpr>),
    /// The sum of the elements at an index of the arrays among the members.
    Element(Boxed<SetExpr>, Boxed<IntExpr>),
    /// The sum of the lengths of the arrays among the members.
    Length(Boxed<SetExpr>),
}

/// What a contract says of the state at entry and the state afterwards.
#[derive(Drop)]
pub enum Formula {
    Bool(bool),
    Param(u32),
    /// `result`.
    Answer,
    /// The formula as it was at entry.
    Old(Boxed<Formula>),
    /// The field of this name is true in some member.
    Field(SetExpr, Text),
    Equal(SetExpr, SetExpr),
    Differ(SetExpr, SetExpr),
    Subset(SetExpr, SetExpr),
    /// Two numbers, with `Eq`, `Ne`, `Lt`, `Le`, `Gt` or `Ge`.
    Compare(BinOp, IntExpr, IntExpr),
    NonEmpty(SetExpr),
    Empty(SetExpr),
    /// Exactly one member.
    One(SetExpr),
    /// At most one member.
    Lone(SetExpr),
    All(SetExpr, Boxed<Formula>),
    Exists(SetExpr, Boxed<Formula>),
    NoneOf(SetExpr, Boxed<Formula>),
    /// The element at an index is true in some array among the members.
    Element(SetExpr, IntExpr),
    /// For every whole number from the first to the second.
    AllInt(IntExpr, IntExpr, Boxed<Formula>),
    SomeInt(IntExpr, IntExpr, Boxed<Formula>),
    NoInt(IntExpr, IntExpr, Boxed<Formula>),
    Not(Boxed<Formula>),
    And(Boxed<Formula>, Boxed<Formula>),
    Or(Boxed<Formula>, Boxed<Formula>),
    Implies(Boxed<Formula>, Boxed<Formula>),
    Iff(Boxed<Formula>, Boxed<Formula>),
}
