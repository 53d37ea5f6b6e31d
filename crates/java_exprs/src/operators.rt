//! Operators (JLS 15.15 to 15.25).

ghost use Rattle.std.specs.Prelude.{◌≡◌, IfOk, IfErr, OnOk, [], Some};
ghost use Rattle.core_tree.specs.Types as of;
ghost use Rattle.java_syntax.specs.declared.expression.Expr.TheOpen.{Expr-F};
ghost use Rattle.java_exprs.specs.Attr.{of_rule, negated_faults};
ghost use Rattle.java_names.specs.Refusals.{Allows, Refuses};
ghost use Rattle.java_exprs.specs.Checks.{Checks, attr_at, clean, of_value};
ghost use Rattle.java_denotes.specs.Denotes as denotes;
ghost use Rattle.java_exprs.specs.Resolved as resolved;
ghost use Rattle.java_exprs.specs.Rules as rule;

use crate::environment::Environment;
use crate::fault::fault;
use crate::typed::{Form, Typed};
use crate::value::Value;
use core_tree::forms::{is_boolean, is_int, is_null, is_object, is_string};
use core_tree::{BinOp, Expr, Ty};
use java_denotes::Denotation;
use java_denotes::assignability::is_either_way;
use java_names::Scope;
use java_syntax::{BinaryOp, CheckError};
use sqlite_items::Boxed;
use std::alloc::{AllocError, Global};

/// Checks that the operand is an int.
pub fn wants_int(e: &Value) -> Result<(), CheckError>
    ensures { Allows (of_rule 11 (rule.wants of.is_int (of_value e.now)) []) result }
{
    if is_int(&e.ty) {
        Ok(())
    } else {
        Err(fault(11, e.at))
    }
}

/// Checks that the operand is a boolean.
pub fn wants_boolean(e: &Value) -> Result<(), CheckError>
    ensures { Allows (of_rule 11 (rule.wants of.is_boolean (of_value e.now)) []) result }
{
    if is_boolean(&e.ty) {
        Ok(())
    } else {
        Err(fault(11, e.at))
    }
}

/// Checks that both operands are ints.
#[tactic(auto, using(crate::proofs::RulesLemmas::both_places, crate::proofs::RulesLemmas::joins))]
pub fn want_ints(l: &Value, r: &Value) -> Result<(), CheckError>
    ensures { Allows (of_rule 11 (rule.both_11 of.is_int (of_value l.now) (of_value r.now)) []) result }
{
    wants_int(l)?;
    wants_int(r)
}

// Checks that both operands are booleans.
#[tactic(auto, using(crate::proofs::RulesLemmas::both_places, crate::proofs::RulesLemmas::joins))]
fn want_booleans(l: &Value, r: &Value) -> Result<(), CheckError>
    ensures { Allows (of_rule 11 (rule.both_11 of.is_boolean (of_value l.now) (of_value r.now)) []) result }
{
    wants_boolean(l)?;
    wants_boolean(r)
}

/// Checks that the operands are two ints or two booleans.
pub fn want_alike(l: &Value, r: &Value) -> Result<(), CheckError>
    ensures { Allows (of_rule 11 (rule.bitwise_11 (of_value l.now) (of_value r.now)) []) result }
{
    if is_int(&l.ty) {
        return wants_int(r);
    }
    if is_boolean(&l.ty) {
        return wants_boolean(r);
    }
    Err(fault(11, l.at))
}

// Checks that the operands can be compared.
fn want_comparable(env: &Environment, l: &Value, r: &Value) -> Result<(), CheckError>
    ensures { Allows (of_rule 11 (rule.equality_11 env.now (of_value l.now) (of_value r.now)) (of_rule 16 (rule.equality_16 (of_value l.now) (of_value r.now)) [])) result }
{
    let is_text = is_string(&l.ty) || is_string(&r.ty);
    if !is_text {
        if is_either_way(&env.symbols, &l.ty, &r.ty) {
            return Ok(());
        }
        return Err(fault(11, l.at));
    }
    if (is_string(&l.ty) && !is_null(&r.ty)) || (is_string(&r.ty) && !is_null(&l.ty)) {
        return Err(fault(16, l.at));
    }
    Ok(())
}

// Checks that the operands can be added.
fn want_summands(l: &Value, r: &Value) -> Result<(), CheckError>
    ensures { Allows (of_rule 11 (rule.sum_11 (of_value l.now) (of_value r.now)) (of_rule 21 (rule.sum_21 (of_value l.now) (of_value r.now)) [])) result }
{
    if (is_string(&l.ty) && is_object(&r.ty)) || (is_object(&l.ty) && is_string(&r.ty)) {
        return Err(fault(21, l.at));
    }
    if is_string(&l.ty) || is_string(&r.ty) {
        return Ok(());
    }
    want_ints(l, r)
}

// Checks that the operands suit the operator.
fn check_operands(
    env: &Environment,
    scope: &Scope,
    op: BinaryOp,
    l: &Value,
    r: &Value,
) -> Result<(), CheckError>
    ensures { Allows (rule.broken_here env.now scope.now (Expr-F.Binary op (of_value l.now) (of_value r.now))) result }
{
    match op {
        BinaryOp::Or | BinaryOp::And => want_booleans(l, r),
        BinaryOp::BitOr | BinaryOp::BitXor | BinaryOp::BitAnd => want_alike(l, r),
        BinaryOp::Equal | BinaryOp::NotEqual => want_comparable(env, l, r),
        BinaryOp::Add => want_summands(l, r),
        _ => want_ints(l, r),
    }
}

// The type of the operator's result.
fn binary_type(op: BinaryOp, l: &Ty, r: &Ty) -> Ty
    ensures { Some result ≡ denotes.binary_type op (Some l.now) (Some r.now) }
{
    match op {
        BinaryOp::BitOr | BinaryOp::BitXor | BinaryOp::BitAnd => {
            if is_boolean(l) { Ty::Bool } else { Ty::Int }
        }
        BinaryOp::Add => {
            if is_string(l) || is_string(r) {
                Ty::Text
            } else {
                Ty::Int
            }
        }
        BinaryOp::ShiftLeft
        | BinaryOp::ShiftRight
        | BinaryOp::UnsignedShiftRight
        | BinaryOp::Subtract
        | BinaryOp::Multiply
        | BinaryOp::Divide
        | BinaryOp::Remainder => Ty::Int,
        _ => Ty::Bool,
    }
}

/// The operator that is applied to the values of both operands; `None` of `||` and `&&`, which may leave the second one
/// unevaluated.
pub fn strict_op(op: BinaryOp) -> Option<BinOp>
    ensures { result ≡ resolved.strict_op op }
{
    match op {
        BinaryOp::Or | BinaryOp::And => None,
        BinaryOp::BitOr => Some(BinOp::BitOr),
        BinaryOp::BitXor => Some(BinOp::BitXor),
        BinaryOp::BitAnd => Some(BinOp::BitAnd),
        BinaryOp::Equal => Some(BinOp::Eq),
        BinaryOp::NotEqual => Some(BinOp::Ne),
        BinaryOp::Less => Some(BinOp::Lt),
        BinaryOp::Greater => Some(BinOp::Gt),
        BinaryOp::LessEqual => Some(BinOp::Le),
        BinaryOp::GreaterEqual => Some(BinOp::Ge),
        BinaryOp::ShiftLeft => Some(BinOp::Shl),
        BinaryOp::ShiftRight => Some(BinOp::Shr),
        BinaryOp::UnsignedShiftRight => Some(BinOp::Ushr),
        BinaryOp::Add => Some(BinOp::Add),
        BinaryOp::Subtract => Some(BinOp::Sub),
        BinaryOp::Multiply => Some(BinOp::Mul),
        BinaryOp::Divide => Some(BinOp::Div),
        BinaryOp::Remainder => Some(BinOp::Rem),
    }
}

// The resolved operator, which joins texts where `joins`.
fn binary_core(
    alloc: Global,
    op: BinaryOp,
    joins: bool,
    l: Expr,
    r: Expr,
) -> Result<Expr, AllocError>
    ensures { IfOk result (λ core. core ≡ resolved.binary_core op joins l r) }
{
    let l = Boxed::new(alloc, l)?;
    let r = Boxed::new(alloc, r)?;
    if joins && matches!(op, BinaryOp::Add) {
        return Ok(Expr::Concat(l, r));
    }
    match strict_op(op) {
        Some(op) => Ok(Expr::Binary(op, l, r)),
        None if matches!(op, BinaryOp::Or) => Ok(Expr::Or(l, r)),
        None => Ok(Expr::And(l, r)),
    }
}

/// An operator between two operands (JLS 15.17 to 15.24).
pub fn binary(
    alloc: Global,
    env: &Environment,
    scope: &Scope,
    op: BinaryOp,
    l: Value,
    r: Value,
) -> Result<Typed, CheckError>
    ensures { Checks (attr_at env.now scope.now (Expr-F.Binary op (of_value l) (of_value r))) result }
{
    check_operands(env, scope, op, &l, &r)?;
    let at = l.at;
    let ty = binary_type(op, &l.ty, &r.ty);
    let joins = is_string(&l.ty) || is_string(&r.ty);
    let core = binary_core(alloc, op, joins, l.core, r.core)?;
    Ok(Typed {
        at,
        denotes: Denotation::Value(ty),
        form: Form::Other,
        needs_minus: false,
        core,
    })
}
