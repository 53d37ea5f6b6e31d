//! Operators before their operand (JLS 15.15).

ghost use Rattle.std.specs.Prelude.{◌≡◌, IfOk, IfErr, [], Some};
ghost use Rattle.java_syntax.specs.declared.expression.Expr.TheOpen.{Expr-F};
ghost use Rattle.java_syntax.specs.declared.operator.UnaryOp.TheVariants as op;
ghost use Rattle.java_exprs.specs.Attr.{negated_faults, of_rule};
ghost use Rattle.java_names.specs.Refusals.{Allows, Refuses};
ghost use Rattle.java_exprs.specs.Checks.{Checks, attr_at, clean, of_value};
ghost use Rattle.java_denotes.specs.Denotes as denotes;
ghost use Rattle.java_exprs.specs.Resolved as resolved;
ghost use Rattle.java_exprs.specs.Rules as rule;

use crate::environment::Environment;
use crate::fault::fault;
use crate::operators::{wants_boolean, wants_int};
use crate::typed::{Form, Typed};
use crate::value::Value;
use core_tree::{Expr, Ty, UnOp};
use java_denotes::Denotation;
use java_names::Scope;
use java_syntax::{CheckError, UnaryOp};
use sqlite_items::Boxed;
use std::alloc::Global;

/// The resolved operator.
pub fn un_op(op: UnaryOp) -> UnOp
    ensures { result ≡ resolved.un_op op }
{
    match op {
        UnaryOp::Plus => UnOp::Plus,
        UnaryOp::Minus => UnOp::Neg,
        UnaryOp::Not => UnOp::Not,
        UnaryOp::Complement => UnOp::Flip,
    }
}

// Checks that the operand suits the operator.
fn check_operand(op: UnaryOp, e: &Value) -> Result<(), CheckError>
    ensures { Allows (of_rule 11 (rule.unary_11 op (of_value e.now)) []) result }
{
    match op {
        UnaryOp::Not => wants_boolean(e),
        UnaryOp::Plus | UnaryOp::Minus | UnaryOp::Complement => wants_int(e),
    }
}

// The type of the operator's result.
fn unary_type(op: UnaryOp) -> Ty
    ensures { result ≡ denotes.unary_type op }
{
    match op {
        UnaryOp::Not => Ty::Bool,
        UnaryOp::Plus | UnaryOp::Minus | UnaryOp::Complement => Ty::Int,
    }
}

/// An operator before a value.
pub fn unary(
    alloc: Global,
    env: &Environment,
    scope: &Scope,
    at: u32,
    op: UnaryOp,
    e: Value,
) -> Result<Typed, CheckError>
    ensures { Checks (attr_at env.now scope.now (Expr-F.Unary at op (of_value e))) result }
{
    check_operand(op, &e)?;
    Ok(Typed {
        at,
        denotes: Denotation::Value(unary_type(op)),
        form: Form::Other,
        needs_minus: false,
        core: Expr::Unary(un_op(op), Boxed::new(alloc, e.core)?),
    })
}

/// A minus before an expression, which may be the number 2147483648.
pub fn minus(
    alloc: Global,
    env: &Environment,
    scope: &Scope,
    at: u32,
    e: Typed,
) -> Result<Typed, CheckError>
    ensures { Checks (attr_at env.now scope.now (Expr-F.Unary at op.Minus (clean e))) result }
{
    match e.denotes {
        Denotation::Value(Ty::Int) => Ok(Typed {
            at,
            denotes: Denotation::Value(Ty::Int),
            form: Form::Other,
            needs_minus: false,
            core: Expr::Unary(UnOp::Neg, Boxed::new(alloc, e.core)?),
        }),
        Denotation::Value(_) | Denotation::Nothing | Denotation::Print(_) => Err(fault(11, e.at)),
        Denotation::Class(_) | Denotation::System | Denotation::Output => Err(fault(10, e.at)),
    }
}
