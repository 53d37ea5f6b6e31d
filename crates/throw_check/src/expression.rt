//! An expression: what it denotes, and whether the exceptions are handled that it may throw (JLS 11.2.1).

ghost use Rattle.std.specs.Prelude.{◌≡◌, [], ◌++◌, IfOk, flat_map, map};
ghost use Rattle.std.specs.Option.{option_map_or};
ghost use Rattle.java_syntax.specs.declared.expression.Expr.TheOpen.{Expr-F};
ghost use Rattle.java_denotes.specs.Known.{known_of, known_at};
ghost use Rattle.throw_check.specs.Points.{expr_points, points_here};
ghost use Rattle.throw_check.specs.Statements.{optional_points};
ghost use Rattle.java_names.specs.Refusals.{Allows};
ghost use Rattle.throw_check.specs.Walks.{faults_left};

use crate::calls;
use crate::handlers::Handlers;
use core_tree::Ty;
use java_denotes::{Known, names, types};
use java_names::{Scope, Symbols};
use java_syntax::{BinaryOp, CheckError, Expr, Ident, TypeTree, UnaryOp};
use std::alloc::Global;

/// What is known of an expression, where all checked exceptions are handled that it may throw.
///
/// # Errors
/// `Fault` of rule 23 at the first token of a call or a `new` in it that may throw an exception that breaks the rule.
/// `OutOfMemory` where memory runs out.
#[cycle(expressions)]
#[tactic(auto, using(java_denotes::proofs::KnownLemmas::nodes, crate::proofs::PointLemmas::points, crate::proofs::LeftLemmas::joins))]
pub fn expr(
    alloc: Global,
    symbols: &Symbols,
    scope: &Scope,
    handlers: &Handlers,
    e: &Expr,
) -> Result<Known, CheckError>
    ensures known { IfOk result (λ k. k ≡ known_of symbols.now scope.now e.now) }
    ensures handled { Allows (faults_left symbols.now handlers.now (expr_points symbols.now scope.now e.now)) result }
{
    match e {
        Expr::Number(at, _) => Ok(Known::value(*at, Ty::Int)),
        Expr::Text(at, _) => Ok(Known::value(*at, Ty::Text)),
        Expr::Bool(at, _) => Ok(Known::value(*at, Ty::Bool)),
        Expr::Null(at) => Ok(Known::value(*at, Ty::Null)),
        Expr::This(at) => Ok(Known::value(*at, Ty::Class(scope.class))),
        Expr::Name(x) => {
            let denotes = names::name(alloc, symbols, scope, x)?;
            Ok(Known { at: x.at, denotes })
        }
        Expr::Call(m, xs) => {
            each(alloc, symbols, scope, handlers, xs.as_slice())?;
            calls::call(alloc, symbols, scope, handlers, m, xs.as_slice())
        }
        Expr::Paren(at, e) => paren(alloc, symbols, scope, handlers, *at, e.get()),
        Expr::Super(at, m, xs) => {
            each(alloc, symbols, scope, handlers, xs.as_slice())?;
            calls::super_call(alloc, symbols, scope, handlers, *at, m, xs.as_slice())
        }
        Expr::New(at, class, xs) => {
            each(alloc, symbols, scope, handlers, xs.as_slice())?;
            calls::new_object(symbols, scope, handlers, *at, class, xs.as_slice())
        }
        Expr::NewArray(at, base, e, dimensions) => {
            expr(alloc, symbols, scope, handlers, e.get())?;
            let denotes = types::array(alloc, symbols, base, *dimensions)?;
            Ok(Known { at: *at, denotes })
        }
        Expr::Field(o, f) => field(alloc, symbols, scope, handlers, o.get(), f),
        Expr::Method(o, m, xs) => {
            let xs = xs.as_slice();
            method(alloc, symbols, scope, handlers, e, o.get(), m, xs)
        }
        Expr::Element(a, i) => element(alloc, symbols, scope, handlers, e, a.get(), i.get()),
        Expr::Unary(at, op, e) => unary(alloc, symbols, scope, handlers, *at, *op, e.get()),
        Expr::Cast(at, ty, e) => cast(alloc, symbols, scope, handlers, *at, ty, e.get()),
        Expr::Binary(op, l, r) => {
            binary(alloc, symbols, scope, handlers, e, *op, l.get(), r.get())
        }
        Expr::InstanceOf(e, ty) => instance_of(alloc, symbols, scope, handlers, e.get(), ty),
        Expr::Conditional(c, a, b) => {
            let b = b.get();
            conditional(alloc, symbols, scope, handlers, e, c.get(), a.get(), b)
        }
    }
}

// `(e)`
#[cycle(expressions)]
fn paren(
    alloc: Global,
    symbols: &Symbols,
    scope: &Scope,
    handlers: &Handlers,
    at: u32,
    e: &Expr,
) -> Result<Known, CheckError>
    ensures known { IfOk result (λ k. k ≡ known_at symbols.now scope.now (Expr-F.Paren at (known_of symbols.now scope.now e.now))) }
    ensures handled { Allows (faults_left symbols.now handlers.now (expr_points symbols.now scope.now e.now)) result }
{
    let e = expr(alloc, symbols, scope, handlers, e)?;
    Ok(Known {
        at,
        denotes: e.into_value(),
    })
}

// `o.f`
#[cycle(expressions)]
fn field(
    alloc: Global,
    symbols: &Symbols,
    scope: &Scope,
    handlers: &Handlers,
    o: &Expr,
    f: &Ident,
) -> Result<Known, CheckError>
    ensures known { IfOk result (λ k. k ≡ known_at symbols.now scope.now (Expr-F.Field (known_of symbols.now scope.now o.now) f.now)) }
    ensures handled { Allows (faults_left symbols.now handlers.now (expr_points symbols.now scope.now o.now)) result }
{
    let o = expr(alloc, symbols, scope, handlers, o)?;
    let denotes = names::field(alloc, symbols, &o, f)?;
    Ok(Known { at: o.at, denotes })
}

// An operator before an expression.
#[cycle(expressions)]
fn unary(
    alloc: Global,
    symbols: &Symbols,
    scope: &Scope,
    handlers: &Handlers,
    at: u32,
    op: UnaryOp,
    e: &Expr,
) -> Result<Known, CheckError>
    ensures known { IfOk result (λ k. k ≡ known_at symbols.now scope.now (Expr-F.Unary at op (known_of symbols.now scope.now e.now))) }
    ensures handled { Allows (faults_left symbols.now handlers.now (expr_points symbols.now scope.now e.now)) result }
{
    expr(alloc, symbols, scope, handlers, e)?;
    Ok(Known::value(at, types::unary(op)))
}

// `(T) e`
#[cycle(expressions)]
fn cast(
    alloc: Global,
    symbols: &Symbols,
    scope: &Scope,
    handlers: &Handlers,
    at: u32,
    ty: &TypeTree,
    e: &Expr,
) -> Result<Known, CheckError>
    ensures known { IfOk result (λ k. k ≡ known_at symbols.now scope.now (Expr-F.Cast at ty.now (known_of symbols.now scope.now e.now))) }
    ensures handled { Allows (faults_left symbols.now handlers.now (expr_points symbols.now scope.now e.now)) result }
{
    expr(alloc, symbols, scope, handlers, e)?;
    let denotes = types::spelled(alloc, symbols, ty)?;
    Ok(Known { at, denotes })
}

// `e instanceof T`
#[cycle(expressions)]
fn instance_of(
    alloc: Global,
    symbols: &Symbols,
    scope: &Scope,
    handlers: &Handlers,
    e: &Expr,
    ty: &TypeTree,
) -> Result<Known, CheckError>
    ensures known { IfOk result (λ k. k ≡ known_at symbols.now scope.now (Expr-F.InstanceOf (known_of symbols.now scope.now e.now) ty.now)) }
    ensures handled { Allows (faults_left symbols.now handlers.now (expr_points symbols.now scope.now e.now)) result }
{
    let e = expr(alloc, symbols, scope, handlers, e)?;
    Ok(Known::value(e.at, Ty::Bool))
}

// `o.m(a, b)`
#[cycle(expressions)]
#[tactic(auto, using(crate::proofs::LeftLemmas::joins))]
fn method(
    alloc: Global,
    symbols: &Symbols,
    scope: &Scope,
    handlers: &Handlers,
    whole: &Expr,
    o: &Expr,
    m: &Ident,
    xs: &[Expr],
) -> Result<Known, CheckError>
    requires { whole.now ≡ Expr.Method o.now m.now xs.now }
    ensures known { IfOk result (λ k. k ≡ known_at symbols.now scope.now (Expr-F.Method (known_of symbols.now scope.now o.now) m.now (map (known_of symbols.now scope.now) xs.now))) }
    ensures handled { Allows (faults_left symbols.now handlers.now ((expr_points symbols.now scope.now o.now ++ flat_map (expr_points symbols.now scope.now) xs.now) ++ points_here symbols.now scope.now (Expr-F.Method (known_of symbols.now scope.now o.now) m.now (map (known_of symbols.now scope.now) xs.now)))) result }
{
    let o = expr(alloc, symbols, scope, handlers, o)?;
    each(alloc, symbols, scope, handlers, xs)?;
    calls::method(alloc, symbols, scope, handlers, &o, m, xs)
}

// `a[i]`
#[cycle(expressions)]
#[tactic(auto, using(crate::proofs::LeftLemmas::joins))]
fn element(
    alloc: Global,
    symbols: &Symbols,
    scope: &Scope,
    handlers: &Handlers,
    whole: &Expr,
    a: &Expr,
    i: &Expr,
) -> Result<Known, CheckError>
    requires { whole.now ≡ Expr.Element a.now i.now }
    ensures known { IfOk result (λ k. k ≡ known_at symbols.now scope.now (Expr-F.Element (known_of symbols.now scope.now a.now) (known_of symbols.now scope.now i.now))) }
    ensures handled { Allows (faults_left symbols.now handlers.now (expr_points symbols.now scope.now a.now ++ expr_points symbols.now scope.now i.now)) result }
{
    let a = expr(alloc, symbols, scope, handlers, a)?;
    expr(alloc, symbols, scope, handlers, i)?;
    let denotes = types::element(alloc, &a)?;
    Ok(Known { at: a.at, denotes })
}

// An operator between two expressions.
#[cycle(expressions)]
#[tactic(auto, using(crate::proofs::LeftLemmas::joins))]
fn binary(
    alloc: Global,
    symbols: &Symbols,
    scope: &Scope,
    handlers: &Handlers,
    whole: &Expr,
    op: BinaryOp,
    l: &Expr,
    r: &Expr,
) -> Result<Known, CheckError>
    requires { whole.now ≡ Expr.Binary op l.now r.now }
    ensures known { IfOk result (λ k. k ≡ known_at symbols.now scope.now (Expr-F.Binary op (known_of symbols.now scope.now l.now) (known_of symbols.now scope.now r.now))) }
    ensures handled { Allows (faults_left symbols.now handlers.now (expr_points symbols.now scope.now l.now ++ expr_points symbols.now scope.now r.now)) result }
{
    let l = expr(alloc, symbols, scope, handlers, l)?;
    let r = expr(alloc, symbols, scope, handlers, r)?;
    Ok(Known {
        at: l.at,
        denotes: types::binary(op, &l, &r),
    })
}

// `c ? a : b`
#[cycle(expressions)]
#[tactic(auto, using(crate::proofs::LeftLemmas::joins))]
fn conditional(
    alloc: Global,
    symbols: &Symbols,
    scope: &Scope,
    handlers: &Handlers,
    whole: &Expr,
    c: &Expr,
    a: &Expr,
    b: &Expr,
) -> Result<Known, CheckError>
    requires { whole.now ≡ Expr.Conditional c.now a.now b.now }
    ensures known { IfOk result (λ k. k ≡ known_at symbols.now scope.now (Expr-F.Conditional (known_of symbols.now scope.now c.now) (known_of symbols.now scope.now a.now) (known_of symbols.now scope.now b.now))) }
    ensures handled { Allows (faults_left symbols.now handlers.now (expr_points symbols.now scope.now c.now ++ (expr_points symbols.now scope.now a.now ++ expr_points symbols.now scope.now b.now))) result }
{
    let c = expr(alloc, symbols, scope, handlers, c)?;
    let a = expr(alloc, symbols, scope, handlers, a)?;
    let b = expr(alloc, symbols, scope, handlers, b)?;
    Ok(Known {
        at: c.at,
        denotes: types::conditional(symbols, a, b),
    })
}

/// Checks that all checked exceptions are handled that these expressions may throw, as the arguments of a call.
///
/// # Errors
/// As `expr`, for one of them.
#[cycle(expressions)]
#[tactic(auto, using(crate::proofs::LeftLemmas::joins))]
pub fn each(
    alloc: Global,
    symbols: &Symbols,
    scope: &Scope,
    handlers: &Handlers,
    list: &[Expr],
) -> Result<(), CheckError>
    ensures { Allows (faults_left symbols.now handlers.now (flat_map (expr_points symbols.now scope.now) list.now)) result }
{
    for e in list {
        expr(alloc, symbols, scope, handlers, e)?;
    }
    Ok(())
}

/// Checks that all checked exceptions are handled that an expression may throw, which may be left out.
///
/// # Errors
/// As `expr`, where there is one.
#[tactic(auto, using(crate::proofs::LeftLemmas::joins))]
pub fn optional(
    alloc: Global,
    symbols: &Symbols,
    scope: &Scope,
    handlers: &Handlers,
    e: &Option<Expr>,
) -> Result<(), CheckError>
    ensures { Allows (faults_left symbols.now handlers.now (optional_points symbols.now scope.now e.now)) result }
{
    match e {
        Some(e) => {
            expr(alloc, symbols, scope, handlers, e)?;
            Ok(())
        }
        None => Ok(()),
    }
}
