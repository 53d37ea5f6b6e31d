//! Statements over parts that are owned, each made by itself: a reader holds few trees while memory may run out.

ghost use Rattle.std.specs.Prelude.{◌≡◌, IfOk, [], ◌∷◌};
ghost use Rattle.java_reading.specs.ReadStmt.{catch_clause};

use java_syntax::{CatchTree, Expr, Stmt};
use sqlite_items::{Boxed, Items};
use std::alloc::{AllocError, Global};
use token_reading::Ident;

fn boxed(alloc: Global, tree: Option<Stmt>) -> Result<Option<Boxed<Stmt>>, AllocError>
    ensures { IfOk result (λ b. b ≡ tree) }
{
    match tree {
        Some(tree) => Ok(Some(Boxed::new(alloc, tree)?)),
        None => Ok(None),
    }
}

/// The list of this statement alone.
pub fn one(alloc: Global, tree: Stmt) -> Result<Items<Stmt>, AllocError>
    ensures { IfOk result (λ all. all ≡ tree ∷ []) }
{
    let mut all = Items::new(alloc);
    all.push(tree)?;
    Ok(all)
}

pub fn if_node(
    alloc: Global,
    condition: Expr,
    then: Stmt,
    other: Option<Stmt>,
) -> Result<Stmt, AllocError>
    ensures { IfOk result (λ t. t ≡ Stmt.If condition then other) }
{
    let then = Boxed::new(alloc, then)?;
    let other = boxed(alloc, other)?;
    Ok(Stmt::If(condition, then, other))
}

pub fn while_node(alloc: Global, condition: Expr, body: Stmt) -> Result<Stmt, AllocError>
    ensures { IfOk result (λ t. t ≡ Stmt.While condition body) }
{
    Ok(Stmt::While(condition, Boxed::new(alloc, body)?))
}

pub fn do_node(alloc: Global, body: Stmt, condition: Expr) -> Result<Stmt, AllocError>
    ensures { IfOk result (λ t. t ≡ Stmt.DoWhile body condition) }
{
    Ok(Stmt::DoWhile(Boxed::new(alloc, body)?, condition))
}

pub fn for_node(
    alloc: Global,
    start: Items<Stmt>,
    condition: Option<Expr>,
    update: Items<Stmt>,
    body: Stmt,
) -> Result<Stmt, AllocError>
    ensures { IfOk result (λ t. t ≡ Stmt.For start condition update body) }
{
    Ok(Stmt::For(start, condition, update, Boxed::new(alloc, body)?))
}

pub fn catch_clause(
    alloc: Global,
    class: Ident,
    name: Ident,
    body: Stmt,
) -> Result<CatchTree, AllocError>
    ensures { IfOk result (λ t. t ≡ catch_clause class name body) }
{
    Ok(CatchTree {
        class,
        name,
        body: Boxed::new(alloc, body)?,
    })
}

pub fn try_node(
    alloc: Global,
    body: Stmt,
    clauses: Items<CatchTree>,
    last: Option<Stmt>,
) -> Result<Stmt, AllocError>
    ensures { IfOk result (λ t. t ≡ Stmt.Try body clauses last) }
{
    let body = Boxed::new(alloc, body)?;
    let last = boxed(alloc, last)?;
    Ok(Stmt::Try(body, clauses, last))
}
