//! Parentheses, elements and conditionals (JLS 15.8.5, 15.10.3, 15.25).

ghost use Rattle.std.specs.Prelude.{◌≡◌, ◌++◌, [], Some, IfOk, IfErr, false};
ghost use Rattle.core_tree.specs.Types as of;
ghost use Rattle.core_tree.specs.declared.expr.Expr.TheViews as view;
ghost use Rattle.java_syntax.specs.declared.expression.Expr.TheOpen.{Expr-F};
ghost use Rattle.java_exprs.specs.Attr.{of_rule};
ghost use Rattle.java_names.specs.Refusals.{Allows};
ghost use Rattle.java_exprs.specs.Checks.{Checks, attr_at, clean, of_value};
ghost use Rattle.java_exprs.specs.Rules as rule;
ghost use Rattle.java_exprs.specs.Denotes as denotes;
ghost use Rattle.java_denotes.specs.Types as spec;

use crate::environment::Environment;
use crate::fault::fault;
use crate::operators::{wants_boolean, wants_int};
use crate::typed::{Form, Typed};
use crate::value::Value;
use core_tree::forms::is_array;
use core_tree::{Expr, Ty};
use java_denotes::Denotation;
use java_denotes::assignability::{is_assignable, is_either_way};
use java_names::{Scope, Symbols};
use java_syntax::CheckError;
use sqlite_items::Boxed;
use std::alloc::{AllocError, Global};

// The form of an expression in parentheses.
fn form_inside(form: Form) -> Form
    ensures { result ≡ denotes.form_inside form }
{
    match form {
        Form::Variable => Form::Variable,
        Form::Constant(at) => Form::Constant(at),
        Form::Call | Form::Other => Form::Other,
    }
}

/// An expression in parentheses.
pub fn paren(env: &Environment, scope: &Scope, at: u32, e: Value) -> Result<Typed, CheckError>
    ensures { Checks (attr_at env.now scope.now (Expr-F.Paren at (of_value e))) result }
{
    Ok(Typed {
        at,
        denotes: Denotation::Value(e.ty),
        form: form_inside(e.form),
        needs_minus: false,
        core: e.core,
    })
}

// Checks that the value is an array.
fn wants_array(e: &Value) -> Result<(), CheckError>
    ensures { Allows (of_rule 11 (rule.wants of.is_array (of_value e.now)) []) result }
{
    if is_array(&e.ty) {
        Ok(())
    } else {
        Err(fault(11, e.at))
    }
}

// Checks that the values are an array and an index.
#[tactic(auto, using(crate::proofs::RulesLemmas::both_places, crate::proofs::RulesLemmas::joins))]
fn check_element(a: &Value, i: &Value) -> Result<(), CheckError>
    ensures { Allows (of_rule 11 (rule.wants of.is_array (of_value a.now) ++ rule.wants of.is_int (of_value i.now)) []) result }
{
    wants_array(a)?;
    wants_int(i)
}

// The resolved element.
fn element_core(alloc: Global, a: Expr, i: Expr) -> Result<Expr, AllocError>
    ensures { IfOk result (λ core. core ≡ view.Element a i) }
{
    let a = Boxed::new(alloc, a)?;
    Ok(Expr::Element(a, Boxed::new(alloc, i)?))
}

/// `a[i]`
///
/// # Errors
/// `Fault` of rule 11 at the first token of `a` where that isn't an array, and of `i` where that is no int.
/// `OutOfMemory` where memory runs out.
pub fn element(
    alloc: Global,
    env: &Environment,
    scope: &Scope,
    a: Value,
    i: Value,
) -> Result<Typed, CheckError>
    ensures { Checks (attr_at env.now scope.now (Expr-F.Element (of_value a) (of_value i))) result }
{
    check_element(&a, &i)?;
    let Value { at, ty, core, .. } = a;
    match ty {
        Ty::Array(elements) => Ok(Typed {
            at,
            denotes: Denotation::Value(elements.into_inner()),
            form: Form::Variable,
            needs_minus: false,
            core: element_core(alloc, core, i.core)?,
        }),
        _ => Err(fault(11, at)),
    }
}

// Checks that the condition is a boolean, and that one of the other operands can be assigned to the other's type.
#[tactic(auto, using(crate::proofs::RulesLemmas::both_places, crate::proofs::RulesLemmas::joins))]
fn check_conditional(env: &Environment, c: &Value, a: &Value, b: &Value) -> Result<(), CheckError>
    ensures { Allows (of_rule 11 (rule.choice_11 env.now (of_value c.now) (of_value a.now) (of_value b.now)) []) result }
{
    wants_boolean(c)?;
    if is_either_way(&env.symbols, &a.ty, &b.ty) {
        return Ok(());
    }
    Err(fault(11, b.at))
}

// The wider of two types of which one may be assigned to the other.
fn wider(symbols: &Symbols, a: Ty, b: Ty) -> Ty
    ensures { result ≡ spec.wider symbols.now a b }
{
    if is_assignable(symbols, &a, &b) { b } else { a }
}

// The resolved conditional.
fn conditional_core(alloc: Global, c: Expr, a: Expr, b: Expr) -> Result<Expr, AllocError>
    ensures { IfOk result (λ core. core ≡ view.Cond c a b) }
{
    let c = Boxed::new(alloc, c)?;
    let a = Boxed::new(alloc, a)?;
    Ok(Expr::Cond(c, a, Boxed::new(alloc, b)?))
}

/// `c ? a : b`
///
/// # Errors
/// `Fault` of rule 11 at the first token of `c` where that isn't a boolean, and of `b` where neither the type of `a`
/// can be assigned to that of `b` nor the other way round. `OutOfMemory` where memory runs out.
pub fn conditional(
    alloc: Global,
    env: &Environment,
    scope: &Scope,
    c: Value,
    a: Value,
    b: Value,
) -> Result<Typed, CheckError>
    ensures { Checks (attr_at env.now scope.now (Expr-F.Conditional (of_value c) (of_value a) (of_value b))) result }
{
    check_conditional(env, &c, &a, &b)?;
    let at = c.at;
    let core = conditional_core(alloc, c.core, a.core, b.core)?;
    Ok(Typed {
        at,
        denotes: Denotation::Value(wider(&env.symbols, a.ty, b.ty)),
        form: Form::Other,
        needs_minus: false,
        core,
    })
}
