//! An expression, checked and resolved.

ghost use Rattle.std.specs.Prelude.{◌≡◌, [], IfOk, IfErr, map, option_map};
ghost use Rattle.std.specs.Option.{option_map_or};
ghost use Rattle.java_syntax.specs.declared.expression.Expr.TheOpen.{Expr-F};
ghost use Rattle.java_exprs.specs.Attr.{value_faults, values_faults};
ghost use Rattle.java_exprs.specs.Checks.{Checks, attr, attr_at, of_value, of_values};
ghost use Rattle.java_names.specs.Refusals.{Refuses};

use crate::environment::Environment;
use crate::typed::Typed;
use crate::value::Value;
use crate::{calls, casts, creation, fields, literals, names, operators, simple, unary};
use java_names::Scope;
use java_syntax::{BinaryOp, CheckError, Expr, Ident, UnaryOp};
use sqlite_items::Items;
use std::alloc::Global;

/// What is known of an expression, and what it resolves to.
///
/// # Errors
/// `Fault` of a rule that is broken in the expression. `OutOfMemory` where memory runs out.
#[cycle(expressions)]
#[tactic(auto, using(crate::proofs::AttrLemmas::attrs, crate::proofs::AttrLemmas::below))]
pub fn expr(alloc: Global, env: &Environment, scope: &Scope, e: &Expr) -> Result<Typed, CheckError>
    ensures { Checks (attr env.now scope.now e.now) result }
{
    match e {
        Expr::Number(at, n) => literals::number(env, scope, *at, *n),
        Expr::Text(at, t) => literals::text(alloc, env, scope, *at, t),
        Expr::Bool(at, b) => literals::boolean(env, scope, *at, *b),
        Expr::Null(at) => literals::null(env, scope, *at),
        Expr::This(at) => literals::this(env, scope, *at),
        Expr::Name(x) => names::name(alloc, env, scope, x),
        Expr::Call(m, xs) => {
            let xs = values(alloc, env, scope, xs.as_slice())?;
            calls::call(alloc, env, scope, m, xs)
        }
        Expr::Paren(at, e) => {
            let e = value(alloc, env, scope, e.get())?;
            simple::paren(env, scope, *at, e)
        }
        Expr::Super(at, m, xs) => {
            let xs = values(alloc, env, scope, xs.as_slice())?;
            calls::super_call(alloc, env, scope, *at, m, xs)
        }
        Expr::New(at, class, xs) => {
            let xs = values(alloc, env, scope, xs.as_slice())?;
            creation::new_object(alloc, env, scope, *at, class, xs)
        }
        Expr::NewArray(at, base, e, dimensions) => {
            let e = value(alloc, env, scope, e.get())?;
            creation::new_array(alloc, env, scope, *at, base, e, *dimensions)
        }
        Expr::Field(o, f) => {
            let o = expr(alloc, env, scope, o.get())?;
            fields::field(alloc, env, scope, o, f)
        }
        Expr::Method(o, m, xs) => method(alloc, env, scope, e, o.get(), m, xs.as_slice()),
        Expr::Element(a, i) => element(alloc, env, scope, e, a.get(), i.get()),
        Expr::Unary(at, op, e) => unary_operator(alloc, env, scope, *at, *op, e.get()),
        Expr::Cast(at, t, e) => {
            let e = value(alloc, env, scope, e.get())?;
            casts::cast(alloc, env, scope, *at, t, e)
        }
        Expr::Binary(op, l, r) => binary(alloc, env, scope, e, *op, l.get(), r.get()),
        Expr::InstanceOf(e, t) => {
            let e = value(alloc, env, scope, e.get())?;
            casts::instance_of(alloc, env, scope, e, t)
        }
        Expr::Conditional(c, a, b) => {
            conditional(alloc, env, scope, e, c.get(), a.get(), b.get())
        }
    }
}

// An operator before an expression; a minus may stand before the number 2147483648.
#[cycle(expressions)]
#[tactic(auto, using(crate::proofs::RulesLemmas::joins))]
fn unary_operator(
    alloc: Global,
    env: &Environment,
    scope: &Scope,
    at: u32,
    op: UnaryOp,
    e: &Expr,
) -> Result<Typed, CheckError>
    ensures { Checks (attr_at env.now scope.now (Expr-F.Unary at op (attr env.now scope.now e.now))) result }
{
    match op {
        UnaryOp::Minus => {
            let e = expr(alloc, env, scope, e)?;
            unary::minus(alloc, env, scope, at, e)
        }
        UnaryOp::Plus | UnaryOp::Not | UnaryOp::Complement => {
            let e = value(alloc, env, scope, e)?;
            unary::unary(alloc, env, scope, at, op, e)
        }
    }
}

// `o.m(a, b)`
#[cycle(expressions)]
#[tactic(auto, using(crate::proofs::RulesLemmas::joins))]
fn method(
    alloc: Global,
    env: &Environment,
    scope: &Scope,
    whole: &Expr,
    o: &Expr,
    m: &Ident,
    xs: &[Expr],
) -> Result<Typed, CheckError>
    requires { whole.now ≡ Expr.Method o.now m.now xs.now }
    ensures { Checks (attr_at env.now scope.now (Expr-F.Method (attr env.now scope.now o.now) m.now (map (attr env.now scope.now) xs.now))) result }
{
    let o = expr(alloc, env, scope, o)?;
    let xs = values(alloc, env, scope, xs)?;
    calls::method(alloc, env, scope, o, m, xs)
}

// `a[i]`
#[cycle(expressions)]
#[tactic(auto, using(crate::proofs::RulesLemmas::joins))]
fn element(
    alloc: Global,
    env: &Environment,
    scope: &Scope,
    whole: &Expr,
    a: &Expr,
    i: &Expr,
) -> Result<Typed, CheckError>
    requires { whole.now ≡ Expr.Element a.now i.now }
    ensures { Checks (attr_at env.now scope.now (Expr-F.Element (attr env.now scope.now a.now) (attr env.now scope.now i.now))) result }
{
    let a = value(alloc, env, scope, a)?;
    let i = value(alloc, env, scope, i)?;
    simple::element(alloc, env, scope, a, i)
}

// An operator between two expressions.
#[cycle(expressions)]
#[tactic(auto, using(crate::proofs::RulesLemmas::joins))]
fn binary(
    alloc: Global,
    env: &Environment,
    scope: &Scope,
    whole: &Expr,
    op: BinaryOp,
    l: &Expr,
    r: &Expr,
) -> Result<Typed, CheckError>
    requires { whole.now ≡ Expr.Binary op l.now r.now }
    ensures { Checks (attr_at env.now scope.now (Expr-F.Binary op (attr env.now scope.now l.now) (attr env.now scope.now r.now))) result }
{
    let l = value(alloc, env, scope, l)?;
    let r = value(alloc, env, scope, r)?;
    operators::binary(alloc, env, scope, op, l, r)
}

// `c ? a : b`
#[cycle(expressions)]
#[tactic(auto, using(crate::proofs::RulesLemmas::joins))]
fn conditional(
    alloc: Global,
    env: &Environment,
    scope: &Scope,
    whole: &Expr,
    c: &Expr,
    a: &Expr,
    b: &Expr,
) -> Result<Typed, CheckError>
    requires { whole.now ≡ Expr.Conditional c.now a.now b.now }
    ensures { Checks (attr_at env.now scope.now (Expr-F.Conditional (attr env.now scope.now c.now) (attr env.now scope.now a.now) (attr env.now scope.now b.now))) result }
{
    let c = value(alloc, env, scope, c)?;
    let a = value(alloc, env, scope, a)?;
    let b = value(alloc, env, scope, b)?;
    simple::conditional(alloc, env, scope, c, a, b)
}

/// An expression that stands where a value is needed.
///
/// # Errors
/// As `expr`; and `Fault` of rule 10, 11 or 19 where it has no value, as `Typed::value` says.
#[cycle(expressions)]
#[tactic(auto, using(crate::proofs::AttrLemmas::in_value))]
pub fn value(alloc: Global, env: &Environment, scope: &Scope, e: &Expr) -> Result<Value, CheckError>
    ensures value { IfOk result (λ v. attr env.now scope.now e.now ≡ of_value v) }
    ensures fault { IfErr result (Refuses (value_faults (attr env.now scope.now e.now))) }
{
    expr(alloc, env, scope, e)?.value()
}

/// Expressions that stand where values are needed, as the arguments of a call.
///
/// # Errors
/// As `value`, for one of them.
#[cycle(expressions)]
pub fn values(
    alloc: Global,
    env: &Environment,
    scope: &Scope,
    list: &[Expr],
) -> Result<Items<Value>, CheckError>
    ensures values { IfOk result (λ vs. map (attr env.now scope.now) list.now ≡ of_values vs) }
    ensures fault { IfErr result (Refuses (values_faults (map (attr env.now scope.now) list.now))) }
{
    let mut done = Items::new(alloc);
    for e in list {
        done.push(value(alloc, env, scope, e)?)?;
    }
    Ok(done)
}

/// An expression that may be left out, and that stands where a value is needed.
///
/// # Errors
/// As `value`, where there is one.
pub fn optional_value(
    alloc: Global,
    env: &Environment,
    scope: &Scope,
    e: &Option<Expr>,
) -> Result<Option<Value>, CheckError>
    ensures value { IfOk result (λ v. option_map (attr env.now scope.now) e.now ≡ option_map of_value v) }
    ensures fault { IfErr result (Refuses (option_map_or (λ it. value_faults (attr env.now scope.now it)) e.now [])) }
{
    match e {
        Some(e) => Ok(Some(value(alloc, env, scope, e)?)),
        None => Ok(None),
    }
}
