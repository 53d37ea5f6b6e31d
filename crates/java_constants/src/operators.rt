//! Operators between the parts of a constant's initialiser (JLS 15.29).

ghost use Rattle.std.specs.Prelude.{◌≡◌, [], ◌∷◌, IfOk};
ghost use Rattle.java_exprs.specs.Operators as operators;

use crate::values::{binary_value, unary_value};
use java_exprs::Folded;
use java_syntax::{BinaryOp, UnaryOp};
use primitive_operators::Scalar;
use std::alloc::{AllocError, Global};

// Whether an initialiser may have this part.
fn is_made(part: &Folded) -> bool
    ensures { result ≡ operators.is_made part.now }
{
    match part {
        Folded::Gives(_) | Folded::Fails | Folded::Unknown => true,
        Folded::Class(_) | Folded::Other => false,
    }
}

/// An expression in parentheses (JLS 15.8.5).
pub fn paren(e: Folded) -> Folded
    ensures { result ≡ operators.of_parts (e ∷ []) e }
{
    match e {
        Folded::Class(_) | Folded::Other => Folded::Other,
        made => made,
    }
}

/// An operator before a part (JLS 15.15).
pub fn unary(op: UnaryOp, e: &Folded) -> Folded
    ensures { result ≡ operators.of_parts (e.now ∷ []) (operators.unary_folded op e.now) }
{
    match e {
        Folded::Gives(value) => unary_value(op, value),
        Folded::Fails => Folded::Fails,
        Folded::Unknown => Folded::Unknown,
        Folded::Class(_) | Folded::Other => Folded::Other,
    }
}

// One of two parts is evaluated, by what the condition gives.
fn choice(c: &Folded, a: Folded, b: Folded) -> Folded
    ensures { result ≡ operators.choice_folded c.now a b }
{
    match c {
        Folded::Gives(Scalar::Bool(true)) => a,
        Folded::Gives(Scalar::Bool(false)) => b,
        Folded::Fails => Folded::Fails,
        _ => Folded::Unknown,
    }
}

// Both operands are evaluated.
fn strict(alloc: Global, op: BinaryOp, l: &Folded, r: &Folded) -> Result<Folded, AllocError>
    ensures { IfOk result (λ f. f ≡ operators.strict_folded op l.now r.now) }
{
    match l {
        Folded::Gives(a) => match r {
            Folded::Gives(b) => binary_value(alloc, op, a, b),
            Folded::Fails => Ok(Folded::Fails),
            _ => Ok(Folded::Unknown),
        },
        Folded::Fails => Ok(Folded::Fails),
        _ => match r {
            Folded::Fails => Ok(Folded::Fails),
            _ => Ok(Folded::Unknown),
        },
    }
}

/// An operator between two parts (JLS 15.17 to 15.24). A second operand that isn't evaluated must be a part of the
/// allowed kinds, too.
///
/// # Errors
/// `AllocError` where memory runs out.
pub fn binary(alloc: Global, op: BinaryOp, l: Folded, r: Folded) -> Result<Folded, AllocError>
    ensures { IfOk result (λ f. f ≡ operators.of_parts (l ∷ r ∷ []) (operators.binary_folded op l r)) }
{
    if !is_made(&l) || !is_made(&r) {
        return Ok(Folded::Other);
    }
    match op {
        BinaryOp::And => Ok(choice(&l, r, Folded::Gives(Scalar::Bool(false)))),
        BinaryOp::Or => Ok(choice(&l, Folded::Gives(Scalar::Bool(true)), r)),
        _ => strict(alloc, op, &l, &r),
    }
}

/// `c ? a : b` (JLS 15.25). Only one of `a` and `b` is evaluated, and both must be parts of the allowed kinds.
pub fn conditional(c: &Folded, a: Folded, b: Folded) -> Folded
    ensures { result ≡ operators.of_parts (c.now ∷ a ∷ b ∷ []) (operators.choice_folded c.now a b) }
{
    if is_made(c) && is_made(&a) && is_made(&b) {
        choice(c, a, b)
    } else {
        Folded::Other
    }
}
