//! A whole expression: its first token, and what it denotes (JLS 6.5, 15).

ghost use Rattle.std.specs.Prelude.{◌≡◌, IfOk, map};
ghost use Rattle.java_syntax.specs.declared.expression.Expr.TheOpen.{Expr-F};
ghost use Rattle.java_denotes.specs.Known as spec;

use crate::known::Known;
use crate::{calls, names, types};
use core_tree::Ty;
use java_names::{Scope, Symbols};
use java_syntax::{BinaryOp, Expr, Ident};
use std::alloc::{AllocError, Global};

/// The number of the first token of an expression in a scope, and what it denotes: nothing is known where a name that
/// decides is unknown. Of the parts it reads those alone that decide, once each. `AllocError` where memory runs out.
#[cycle(expressions)]
#[tactic(auto, using(crate::proofs::KnownLemmas::nodes))]
pub fn known_of(
    alloc: Global,
    symbols: &Symbols,
    scope: &Scope,
    e: &Expr,
) -> Result<Known, AllocError>
    ensures { IfOk result (λ k. k ≡ spec.known_of symbols.now scope.now e.now) }
{
    match e {
        Expr::Number(at, _) => Ok(Known::value(*at, Ty::Int)),
        Expr::Text(at, _) => Ok(Known::value(*at, Ty::Text)),
        Expr::Bool(at, _) => Ok(Known::value(*at, Ty::Bool)),
        Expr::Null(at) => Ok(Known::value(*at, Ty::Null)),
        Expr::This(at) => Ok(Known::value(*at, Ty::Class(scope.class))),
        Expr::Name(x) => Ok(Known {
            at: x.at,
            denotes: names::name(alloc, symbols, scope, x)?,
        }),
        Expr::Call(m, xs) => Ok(Known {
            at: m.at,
            denotes: calls::call(alloc, symbols, scope, m, xs.as_slice())?,
        }),
        Expr::Paren(at, e) => Ok(Known {
            at: *at,
            denotes: known_of(alloc, symbols, scope, e.get())?.into_value(),
        }),
        Expr::Super(at, m, xs) => Ok(Known {
            at: *at,
            denotes: calls::super_call(alloc, symbols, scope, *at, m, xs.as_slice())?,
        }),
        Expr::New(at, class, _) => Ok(Known {
            at: *at,
            denotes: calls::new_value(symbols, class),
        }),
        Expr::NewArray(at, base, _, dimensions) => Ok(Known {
            at: *at,
            denotes: types::array(alloc, symbols, base, *dimensions)?,
        }),
        Expr::Field(o, f) => field(alloc, symbols, scope, o.get(), f),
        Expr::Method(o, m, xs) => method(alloc, symbols, scope, o.get(), m, xs.as_slice()),
        Expr::Element(a, i) => element(alloc, symbols, scope, a.get(), i.get()),
        Expr::Unary(at, op, _) => Ok(Known::value(*at, types::unary(*op))),
        Expr::Cast(at, ty, _) => Ok(Known {
            at: *at,
            denotes: types::spelled(alloc, symbols, ty)?,
        }),
        Expr::Binary(op, l, r) => binary(alloc, symbols, scope, e, *op, l.get(), r.get()),
        Expr::InstanceOf(e, ty) => {
            let e = known_of(alloc, symbols, scope, e.get())?;
            Ok(Known::value(e.at, Ty::Bool))
        }
        Expr::Conditional(c, a, b) => {
            conditional(alloc, symbols, scope, e, c.get(), a.get(), b.get())
        }
    }
}

// `o.f`
#[cycle(expressions)]
fn field(
    alloc: Global,
    symbols: &Symbols,
    scope: &Scope,
    o: &Expr,
    f: &Ident,
) -> Result<Known, AllocError>
    ensures { IfOk result (λ k. k ≡ spec.known_at symbols.now scope.now (Expr-F.Field (spec.known_of symbols.now scope.now o.now) f.now)) }
{
    let o = known_of(alloc, symbols, scope, o)?;
    let denotes = names::field(alloc, symbols, &o, f)?;
    Ok(Known { at: o.at, denotes })
}

// `o.m(a, b)`
#[cycle(expressions)]
fn method(
    alloc: Global,
    symbols: &Symbols,
    scope: &Scope,
    o: &Expr,
    m: &Ident,
    xs: &[Expr],
) -> Result<Known, AllocError>
    ensures { IfOk result (λ k. k ≡ spec.known_at symbols.now scope.now (Expr-F.Method (spec.known_of symbols.now scope.now o.now) m.now (map (spec.known_of symbols.now scope.now) xs.now))) }
{
    let o = known_of(alloc, symbols, scope, o)?;
    let denotes = calls::method(alloc, symbols, scope, &o, m, xs)?;
    Ok(Known { at: o.at, denotes })
}

// `a[i]`
#[cycle(expressions)]
fn element(
    alloc: Global,
    symbols: &Symbols,
    scope: &Scope,
    a: &Expr,
    i: &Expr,
) -> Result<Known, AllocError>
    ensures { IfOk result (λ k. k ≡ spec.known_at symbols.now scope.now (Expr-F.Element (spec.known_of symbols.now scope.now a.now) (spec.known_of symbols.now scope.now i.now))) }
{
    let a = known_of(alloc, symbols, scope, a)?;
    let denotes = types::element(alloc, &a)?;
    Ok(Known { at: a.at, denotes })
}

// An operator between two expressions. It is handed the whole expression beside its parts, so that they are seen to be
// smaller.
#[cycle(expressions)]
fn binary(
    alloc: Global,
    symbols: &Symbols,
    scope: &Scope,
    whole: &Expr,
    op: BinaryOp,
    l: &Expr,
    r: &Expr,
) -> Result<Known, AllocError>
    requires { whole.now ≡ Expr.Binary op l.now r.now }
    ensures { IfOk result (λ k. k ≡ spec.known_at symbols.now scope.now (Expr-F.Binary op (spec.known_of symbols.now scope.now l.now) (spec.known_of symbols.now scope.now r.now))) }
{
    let l = known_of(alloc, symbols, scope, l)?;
    let r = known_of(alloc, symbols, scope, r)?;
    Ok(Known {
        at: l.at,
        denotes: types::binary(op, &l, &r),
    })
}

// `c ? a : b`
#[cycle(expressions)]
fn conditional(
    alloc: Global,
    symbols: &Symbols,
    scope: &Scope,
    whole: &Expr,
    c: &Expr,
    a: &Expr,
    b: &Expr,
) -> Result<Known, AllocError>
    requires { whole.now ≡ Expr.Conditional c.now a.now b.now }
    ensures { IfOk result (λ k. k ≡ spec.known_at symbols.now scope.now (Expr-F.Conditional (spec.known_of symbols.now scope.now c.now) (spec.known_of symbols.now scope.now a.now) (spec.known_of symbols.now scope.now b.now))) }
{
    let c = known_of(alloc, symbols, scope, c)?;
    let a = known_of(alloc, symbols, scope, a)?;
    let b = known_of(alloc, symbols, scope, b)?;
    Ok(Known {
        at: c.at,
        denotes: types::conditional(symbols, a, b),
    })
}
