//! Nodes over parts that are owned, each made by itself: a reader holds few trees while memory may run out.

ghost use Rattle.std.specs.Prelude.{◌≡◌, IfOk};

use java_syntax::{BinaryOp, Expr, UnaryOp};
use sqlite_items::{Boxed, Items};
use std::alloc::{AllocError, Global};
use token_reading::{BaseType, Ident, TypeTree};

pub fn paren(alloc: Global, at: u32, inner: Expr) -> Result<Expr, AllocError>
    ensures { IfOk result (λ e. e ≡ Expr.Paren at inner) }
{
    Ok(Expr::Paren(at, Boxed::new(alloc, inner)?))
}

pub fn cast(alloc: Global, at: u32, ty: TypeTree, operand: Expr) -> Result<Expr, AllocError>
    ensures { IfOk result (λ e. e ≡ Expr.Cast at ty operand) }
{
    Ok(Expr::Cast(at, ty, Boxed::new(alloc, operand)?))
}

pub fn unary(alloc: Global, at: u32, op: UnaryOp, operand: Expr) -> Result<Expr, AllocError>
    ensures { IfOk result (λ e. e ≡ Expr.Unary at op operand) }
{
    Ok(Expr::Unary(at, op, Boxed::new(alloc, operand)?))
}

pub fn new_array(
    alloc: Global,
    at: u32,
    base: BaseType,
    size: Expr,
    dimensions: u32,
) -> Result<Expr, AllocError>
    ensures { IfOk result (λ e. e ≡ Expr.NewArray at base size dimensions) }
{
    Ok(Expr::NewArray(at, base, Boxed::new(alloc, size)?, dimensions))
}

pub fn field(alloc: Global, object: Expr, name: Ident) -> Result<Expr, AllocError>
    ensures { IfOk result (λ e. e ≡ Expr.Field object name) }
{
    Ok(Expr::Field(Boxed::new(alloc, object)?, name))
}

pub fn method(
    alloc: Global,
    object: Expr,
    name: Ident,
    given: Items<Expr>,
) -> Result<Expr, AllocError>
    ensures { IfOk result (λ e. e ≡ Expr.Method object name given) }
{
    Ok(Expr::Method(Boxed::new(alloc, object)?, name, given))
}

pub fn element(alloc: Global, array: Expr, index: Expr) -> Result<Expr, AllocError>
    ensures { IfOk result (λ e. e ≡ Expr.Element array index) }
{
    Ok(Expr::Element(Boxed::new(alloc, array)?, Boxed::new(alloc, index)?))
}

pub fn binary(alloc: Global, op: BinaryOp, left: Expr, right: Expr) -> Result<Expr, AllocError>
    ensures { IfOk result (λ e. e ≡ Expr.Binary op left right) }
{
    Ok(Expr::Binary(op, Boxed::new(alloc, left)?, Boxed::new(alloc, right)?))
}

pub fn instance_of(alloc: Global, operand: Expr, ty: TypeTree) -> Result<Expr, AllocError>
    ensures { IfOk result (λ e. e ≡ Expr.InstanceOf operand ty) }
{
    Ok(Expr::InstanceOf(Boxed::new(alloc, operand)?, ty))
}

pub fn conditional(
    alloc: Global,
    condition: Expr,
    then: Expr,
    other: Expr,
) -> Result<Expr, AllocError>
    ensures { IfOk result (λ e. e ≡ Expr.Conditional condition then other) }
{
    Ok(Expr::Conditional(
        Boxed::new(alloc, condition)?,
        Boxed::new(alloc, then)?,
        Boxed::new(alloc, other)?,
    ))
}
