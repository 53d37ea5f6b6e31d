use crate::operator::{BinaryOp, UnaryOp};
use java_tokens::Name;
use sqlite_items::{Boxed, Items};
use token_reading::{BaseType, Ident, TypeTree};

/// An expression (JLS 15). A number in front is that of the first token, where no part begins with it.
#[derive(Drop)]
pub enum Expr {
    Number(u32, u64),
    Text(u32, Name),
    Bool(u32, bool),
    Null(u32),
    This(u32),
    Name(Ident),
    /// `m(a, b)`
    Call(Ident, Items<Expr>),
    /// `(e)`
    Paren(u32, Boxed<Expr>),
    /// `super.m(a, b)`
    Super(u32, Ident, Items<Expr>),
    /// `new C(a, b)`
    New(u32, Ident, Items<Expr>),
    /// `new T[size][][]`: the base, the size, and how many pairs of brackets stand after it.
    NewArray(u32, BaseType, Boxed<Expr>, u32),
    /// `o.f`
    Field(Boxed<Expr>, Ident),
    /// `o.m(a, b)`
    Method(Boxed<Expr>, Ident, Items<Expr>),
    /// `a[i]`
    Element(Boxed<Expr>, Boxed<Expr>),
    Unary(u32, UnaryOp, Boxed<Expr>),
    /// `(T) e`
    Cast(u32, TypeTree, Boxed<Expr>),
    Binary(BinaryOp, Boxed<Expr>, Boxed<Expr>),
    /// `e instanceof T`
    InstanceOf(Boxed<Expr>, TypeTree),
    /// `c ? a : b`
    Conditional(Boxed<Expr>, Boxed<Expr>, Boxed<Expr>),
}
