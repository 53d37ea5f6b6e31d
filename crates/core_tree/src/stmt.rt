use crate::{Expr, Ty, UpOp};
use sqlite_items::{Boxed, Items};

/// What an assignment writes to. It isn't a node of its own and takes no step.
#[derive(Drop)]
pub enum Target {
    Local(u32),
    Field(Boxed<Expr>, u32),
    Element(Boxed<Expr>, Boxed<Expr>),
}

/// A `catch` clause: the class that it takes, the local that gets the exception, and its block.
#[cycle(stmt)]
#[derive(Drop)]
pub struct Catch {
    pub class: u32,
    pub slot: u32,
    pub body: Boxed<Stmt>,
}

/// A statement. Each one that is entered takes a step.
#[cycle(stmt)]
#[derive(Drop)]
pub enum Stmt {
    Empty,
    Block(Items<Stmt>),
    /// Gives the local with this number and type the value of the expression, or the default of its type.
    Declare(u32, Ty, Option<Boxed<Expr>>),
    Assign(Target, Boxed<Expr>),
    /// A compound assignment. Without an expression the other operand is 1.
    Update(Target, UpOp, Option<Boxed<Expr>>),
    Eval(Boxed<Expr>),
    /// A print; where the flag is true a line feed follows.
    Print(bool, Option<Boxed<Expr>>),
    If(Boxed<Expr>, Boxed<Stmt>, Option<Boxed<Stmt>>),
    While(Boxed<Expr>, Boxed<Stmt>),
    DoWhile(Boxed<Stmt>, Boxed<Expr>),
    /// The statements before the first turn, the condition, the updates after each turn, and the body.
    For(Items<Stmt>, Option<Boxed<Expr>>, Items<Stmt>, Boxed<Stmt>),
    Return(Option<Boxed<Expr>>),
    Break,
    Continue,
    Throw(Boxed<Expr>),
    /// The block, the `catch` clauses in order, and the `finally` block.
    Try(Boxed<Stmt>, Items<Catch>, Option<Boxed<Stmt>>),
}
