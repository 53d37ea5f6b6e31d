//! Assignments, `++` and `--` (JLS 15.14, 15.15, 15.26).

ghost use Rattle.std.specs.Prelude.{◌≡◌, [], IfOk, Some};
ghost use Rattle.core_tree.specs.Types as of;
ghost use Rattle.core_tree.specs.declared.expr.Expr.{out-Expr};
ghost use Rattle.java_syntax.specs.declared.operator.Fix.TheVariants as fix;
ghost use Rattle.java_syntax.specs.declared.statement.Stmt.TheOpen.{Stmt-F};
ghost use Rattle.java_exprs.specs.Attr.{of_rule};
ghost use Rattle.java_names.specs.Refusals.{Allows, Refuses};
ghost use Rattle.java_exprs.specs.Checks.{of_value};
ghost use Rattle.java_exprs.specs.Rules as rule;
ghost use Rattle.java_statements.specs.Outcomes.{Gives};
ghost use Rattle.java_statements.specs.Statements as spec;
ghost use Rattle.java_statements.specs.Statements.{effect_at};

use core_tree::forms::{is_object, is_string};
use core_tree::{Expr as Core, Stmt as Step, Target, Ty, UpOp};
use java_exprs::arguments::fit;
use java_exprs::expression::value;
use java_exprs::fault::fault;
use java_exprs::operators::{want_alike, want_ints, wants_int};
use java_exprs::{Environment, Form, Value};
use java_names::Scope;
use java_syntax::{AssignOp, CheckError, Expr, StepOp};
use sqlite_items::Boxed;
use std::alloc::{AllocError, Global};

// Checks that the operands of `+=` fit: a String takes what concatenation joins, other variables take ints.
fn want_summands(target: &Value, e: &Value) -> Result<(), CheckError>
    ensures { Allows (of_rule 11 (spec.sum_11 (of_value target.now) (of_value e.now)) (of_rule 21 (rule.sum_21 (of_value target.now) (of_value e.now)) [])) result }
{
    if (is_string(&target.ty) && is_object(&e.ty)) || (is_object(&target.ty) && is_string(&e.ty)) {
        return Err(fault(21, target.at));
    }
    if is_string(&target.ty) {
        return Ok(());
    }
    want_ints(target, e)
}

// Checks that the types of both sides suit the sign.
fn check_types(env: &Environment, op: AssignOp, target: &Value, e: &Value) -> Result<(), CheckError>
    ensures { Allows (of_rule 11 (spec.assign_11 env.now op (of_value target.now) (of_value e.now)) (of_rule 21 (spec.assign_21 op (of_value target.now) (of_value e.now)) [])) result }
{
    match op {
        AssignOp::Assign => fit(env, e, &target.ty),
        AssignOp::Add => want_summands(target, e),
        AssignOp::BitAnd | AssignOp::BitOr | AssignOp::BitXor => want_alike(target, e),
        _ => want_ints(target, e),
    }
}

// Checks that the variable takes the value.
fn check_assignment(
    env: &Environment,
    op: AssignOp,
    target: &Value,
    e: &Value,
) -> Result<(), CheckError>
    ensures { Allows (of_rule 11 (spec.assign_11 env.now op (of_value target.now) (of_value e.now)) (of_rule 18 (spec.target_18 (of_value target.now)) (of_rule 20 (spec.constant_20 target.now.form) (of_rule 21 (spec.assign_21 op (of_value target.now) (of_value e.now)) [])))) result }
{
    match target.form {
        Form::Variable => check_types(env, op, target, e),
        Form::Constant(at) => Err(fault(20, at)),
        Form::Call | Form::Other => Err(fault(18, target.at)),
    }
}

// The variable that an expression resolves to. Where it is none, the answer means nothing.
fn target_of(core: Core) -> Target
    ensures { result ≡ spec.target_node (out-Expr core) }
{
    match core {
        Core::Local(number) => Target::Local(number),
        Core::Field(object, place) => Target::Field(object, place),
        Core::Element(array, index) => Target::Element(array, index),
        _ => Target::Local(0),
    }
}

// The operator of a compound assignment to a variable of this type; `None` of `=`.
fn update_op(op: AssignOp, ty: &Ty) -> Option<UpOp>
    ensures { result ≡ spec.update_op op (Some ty.now) }
{
    match op {
        AssignOp::Assign => None,
        AssignOp::Add => {
            if is_string(ty) {
                Some(UpOp::Concat)
            } else {
                Some(UpOp::Add)
            }
        }
        AssignOp::Subtract => Some(UpOp::Sub),
        AssignOp::Multiply => Some(UpOp::Mul),
        AssignOp::Divide => Some(UpOp::Div),
        AssignOp::Remainder => Some(UpOp::Rem),
        AssignOp::BitAnd => Some(UpOp::BitAnd),
        AssignOp::BitOr => Some(UpOp::BitOr),
        AssignOp::BitXor => Some(UpOp::BitXor),
        AssignOp::ShiftLeft => Some(UpOp::Shl),
        AssignOp::ShiftRight => Some(UpOp::Shr),
        AssignOp::UnsignedShiftRight => Some(UpOp::Ushr),
    }
}

// The resolved assignment to a variable; a compound one with its operator.
fn assigned(alloc: Global, op: Option<UpOp>, target: Core, e: Core) -> Result<Step, AllocError>
    ensures { IfOk result (λ step. step ≡ spec.assigned_by op (spec.target_node (out-Expr target)) e) }
{
    let e = Boxed::new(alloc, e)?;
    let target = target_of(target);
    match op {
        Some(op) => Ok(Step::Update(target, op, Some(e))),
        None => Ok(Step::Assign(target, e)),
    }
}

/// `a op= e`
///
/// # Errors
/// `Fault` of a rule that is broken in it. `OutOfMemory` where memory runs out.
#[tactic(auto, using(java_exprs::proofs::RulesLemmas::joins))]
pub fn assign(
    alloc: Global,
    env: &Environment,
    scope: &Scope,
    target: &Expr,
    op: AssignOp,
    e: &Expr,
) -> Result<Step, CheckError>
    ensures { Gives (effect_at env.now (Stmt-F.Assign target.now op e.now) scope.now) scope.now result }
{
    let target = value(alloc, env, scope, target)?;
    let e = value(alloc, env, scope, e)?;
    check_assignment(env, op, &target, &e)?;
    let op = update_op(op, &target.ty);
    Ok(assigned(alloc, op, target.core, e.core)?)
}

// The resolved `++` or `--`.
fn counted(op: StepOp, target: Core) -> Step
    ensures { result ≡ spec.counted_by op (spec.target_node (out-Expr target)) }
{
    let target = target_of(target);
    match op {
        StepOp::Increment => Step::Update(target, UpOp::Add, None),
        StepOp::Decrement => Step::Update(target, UpOp::Sub, None),
    }
}

// Checks that the variable can be counted up or down.
fn check_counted(target: &Value) -> Result<(), CheckError>
    ensures { Allows (of_rule 11 (rule.wants of.is_int (of_value target.now)) (of_rule 18 (spec.target_18 (of_value target.now)) (of_rule 20 (spec.constant_20 target.now.form) []))) result }
{
    match target.form {
        Form::Variable => wants_int(target),
        Form::Constant(at) => Err(fault(20, at)),
        Form::Call | Form::Other => Err(fault(18, target.at)),
    }
}

/// `++a`, `a--`: where the sign stands makes no difference to a statement.
///
/// # Errors
/// `Fault` of a rule that is broken in it. `OutOfMemory` where memory runs out.
#[tactic(auto, using(java_exprs::proofs::RulesLemmas::joins))]
pub fn count(
    alloc: Global,
    env: &Environment,
    scope: &Scope,
    op: StepOp,
    target: &Expr,
) -> Result<Step, CheckError>
    ensures { Gives (effect_at env.now (Stmt-F.Step op fix.Before target.now) scope.now) scope.now result }
{
    let target = value(alloc, env, scope, target)?;
    check_counted(&target)?;
    Ok(counted(op, target.core))
}
