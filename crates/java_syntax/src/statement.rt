use crate::expression::Expr;
use crate::operator::{AssignOp, Fix, StepOp};
use sqlite_items::{Boxed, Items};
use token_reading::{Ident, TypeTree};

/// A local variable: `T x = e` or `T x` (JLS 14.4).
#[derive(Drop)]
pub struct LocalTree {
    pub ty: TypeTree,
    pub name: Ident,
    pub value: Option<Expr>,
}

/// A statement (JLS 14). A number in front is that of the first token, where no part begins with it and a fault may
/// name it.
#[derive(Drop)]
#[cycle(statement)]
pub enum Stmt {
    Empty,
    Block(Items<Stmt>),
    Local(LocalTree),
    /// `a op= e`
    Assign(Expr, AssignOp, Expr),
    /// `++a`, `a--`
    Step(StepOp, Fix, Expr),
    Eval(Expr),
    /// `super(a, b);`
    Super(u32, Items<Expr>),
    If(Expr, Boxed<Stmt>, Option<Boxed<Stmt>>),
    While(Expr, Boxed<Stmt>),
    DoWhile(Boxed<Stmt>, Expr),
    /// The start (one local, or statements without their semicolons), the condition, the update, and the body.
    For(Items<Stmt>, Option<Expr>, Items<Stmt>, Boxed<Stmt>),
    Return(u32, Option<Expr>),
    Break(u32),
    Continue(u32),
    Throw(Expr),
    /// The block, its catch clauses and the block of `finally`.
    Try(Boxed<Stmt>, Items<CatchTree>, Option<Boxed<Stmt>>),
}

/// `catch (C x) { .. }` (JLS 14.20)
#[derive(Drop)]
#[cycle(statement)]
pub struct CatchTree {
    pub class: Ident,
    pub name: Ident,
    pub body: Boxed<Stmt>,
}
