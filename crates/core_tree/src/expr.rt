use crate::{BinOp, Text, Ty, UnOp};
use sqlite_items::{Boxed, Items};

/// Where the name of a called method stands in the source, line and column from 1, the column in characters.
#[derive(Clone, Copy, Debug, PartialEq, Eq, Drop)]
pub struct Site {
    pub line: u32,
    pub column: u32,
}

/// An expression. Each one that is entered takes a step.
#[derive(Drop)]
pub enum Expr {
    Int(i32),
    Bool(bool),
    Text(Text),
    Null,
    This,
    /// The local with this number, the parameters first.
    Local(u32),
    /// The field at this place among the fields of the object's class.
    Field(Boxed<Expr>, u32),
    /// The number of elements of an array.
    Length(Boxed<Expr>),
    /// The element of an array at an index.
    Element(Boxed<Expr>, Boxed<Expr>),
    /// The number of code units of a text.
    TextLength(Boxed<Expr>),
    /// Whether two texts have the same characters; the first must not be null.
    TextEquals(Boxed<Expr>, Boxed<Expr>),
    /// The message field of a Throwable.
    Message(Boxed<Expr>),
    /// A call of the static method with this number.
    Static(u32, Items<Expr>, Site),
    /// A call of the method that this selector picks in the run-time class of the object; with selector 0 and no method
    /// it reads the message field.
    Chosen(Boxed<Expr>, u32, Items<Expr>, Site),
    /// A call of the method with this number on `this`, whatever the run-time class of `this` is.
    Super(u32, Items<Expr>, Site),
    /// A new object, by the constructor with this number.
    New(u32, Items<Expr>),
    /// A new object of this built-in class, with a message or without.
    NewBuilt(u32, Option<Boxed<Expr>>),
    /// A new array with elements of this type and that many of them.
    NewArray(Ty, Boxed<Expr>),
    Unary(UnOp, Boxed<Expr>),
    Binary(BinOp, Boxed<Expr>, Boxed<Expr>),
    And(Boxed<Expr>, Boxed<Expr>),
    Or(Boxed<Expr>, Boxed<Expr>),
    /// The condition, then the value where it is true, then the value where it is false.
    Cond(Boxed<Expr>, Boxed<Expr>, Boxed<Expr>),
    Cast(Ty, Boxed<Expr>),
    /// `instanceof`.
    Is(Ty, Boxed<Expr>),
    /// The texts of two values, one after the other; one of them is a String or null. Both may be null, since a
    /// constant that is null stands here as the literal.
    Concat(Boxed<Expr>, Boxed<Expr>),
}
