//! Operators on the values of constants (JLS 15.15 to 15.22).

ghost use Rattle.std.specs.Prelude.{◌≡◌, IfOk};
ghost use Rattle.java_exprs.specs.Operators.{binary_value, folded_by, is_string_value, strict_value, unary_value};

use crate::texts::joined;
use java_exprs::Folded;
use java_exprs::operators::strict_op;
use java_exprs::unary::un_op;
use java_syntax::{BinaryOp, UnaryOp};
use primitive_operators::{Applied, Scalar};
use std::alloc::{AllocError, Global};

// What an operator made of the values of its operands.
fn folded(applied: Applied) -> Folded
    ensures { result ≡ folded_by applied }
{
    match applied {
        Applied::Gives(value) => Folded::Gives(value),
        Applied::DividesByZero => Folded::Fails,
        Applied::NoMeaning => Folded::Unknown,
    }
}

/// What an operator makes of the value after it (JLS 15.15).
pub fn unary_value(op: UnaryOp, a: &Scalar) -> Folded
    ensures { result ≡ unary_value op a.now }
{
    folded(primitive_operators::unary_value(un_op(op), a.by_ref()))
}

// Whether a String may have this value.
fn is_string_value(a: &Scalar) -> bool
    ensures { result ≡ is_string_value a.now }
{
    match a {
        Scalar::Int(_) | Scalar::Bool(_) => false,
        Scalar::Text(_) | Scalar::Null => true,
    }
}

// What an operator makes of two values whose texts it doesn't join.
fn strict_value(op: BinaryOp, a: &Scalar, b: &Scalar) -> Folded
    ensures { result ≡ strict_value op a.now b.now }
{
    match strict_op(op) {
        Some(op) => folded(primitive_operators::binary_value(op, a.by_ref(), b.by_ref())),
        None => Folded::Unknown,
    }
}

// The sum of two values.
fn sum(alloc: Global, a: &Scalar, b: &Scalar) -> Result<Folded, AllocError>
    ensures { IfOk result (λ f. f ≡ binary_value BinaryOp.Add a.now b.now) }
{
    if is_string_value(a) || is_string_value(b) {
        return joined(alloc, a, b);
    }
    Ok(strict_value(BinaryOp::Add, a, b))
}

/// What an operator makes of two values (JLS 15.17 to 15.22). Only `+` with a text or null takes memory.
///
/// # Errors
/// `AllocError` where memory runs out.
pub fn binary_value(
    alloc: Global,
    op: BinaryOp,
    a: &Scalar,
    b: &Scalar,
) -> Result<Folded, AllocError>
    ensures { IfOk result (λ f. f ≡ binary_value op a.now b.now) }
{
    match op {
        BinaryOp::Add => sum(alloc, a, b),
        _ => Ok(strict_value(op, a, b)),
    }
}
