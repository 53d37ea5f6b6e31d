//! The value of a constant's initialiser (JLS 15.29).

ghost use Rattle.std.specs.Prelude.{◌≡◌, IfOk};
ghost use Rattle.java_syntax.specs.declared.expression.Expr.TheOpen.{Expr-F};
ghost use Rattle.java_exprs.specs.declared.folded.Folded.TheVariants as folded;
ghost use Rattle.java_exprs.specs.Constants as constants;

use crate::operators::{binary, conditional, paren, unary};
use crate::texts::text;
use java_exprs::literals::{GREATEST, int_of};
use java_exprs::{Environment, Folded};
use java_names::{FieldSymbol, Meaning, Scope};
use java_syntax::{Expr, Ident};
use primitive_operators::Scalar;
use std::alloc::{AllocError, Global};

// A number.
fn number(env: &Environment, scope: &Scope, at: u32, n: u64) -> Folded
    ensures { result ≡ constants.folded_at env.now scope.now (Expr-F.Number at n) }
{
    if n > GREATEST {
        return Folded::Unknown;
    }
    Folded::Gives(Scalar::Int(int_of(n)))
}

// A constant that was read, with its value; a text is shared.
fn read(env: &Environment, field: &FieldSymbol) -> Result<Folded, AllocError>
    ensures { IfOk result (λ it. it ≡ constants.field_folded env.now field.now) }
{
    match env.constants.get(field.at) {
        Some(Some(value)) => shared(value),
        Some(None) => Ok(Folded::Unknown),
        None => Ok(Folded::Other),
    }
}

// The value once more; a text is shared.
fn shared(value: &Scalar) -> Result<Folded, AllocError>
    ensures { IfOk result (λ it. it ≡ folded.Gives value.now) }
{
    match value.share() {
        Ok(value) => Ok(Folded::Gives(value)),
        Err(_) => Err(AllocError),
    }
}

// A name.
fn name(env: &Environment, scope: &Scope, x: &Ident) -> Result<Folded, AllocError>
    ensures { IfOk result (λ it. it ≡ constants.folded_at env.now scope.now (Expr-F.Name x.now)) }
{
    match scope.meaning(&env.symbols, &x.name) {
        Meaning::Field(field) => read(env, field),
        Meaning::Class(class) => Ok(Folded::Class(class)),
        Meaning::Local(_) | Meaning::Unknown => Ok(Folded::Other),
    }
}

// A constant of a class, or whatever else stands before a dot.
fn field(env: &Environment, o: &Folded, f: &Ident) -> Result<Folded, AllocError>
    ensures { IfOk result (λ it. it ≡ constants.behind_folded env.now o.now f.now.name) }
{
    match o {
        Folded::Class(class) => match env.symbols.field(*class, &f.name) {
            Some(field) => read(env, field),
            None => Ok(Folded::Other),
        },
        _ => Ok(Folded::Other),
    }
}

/// What an expression is as the initialiser of a constant, or as a part of one (JLS 15.29): its value, or why it has
/// none. The names in it are those of `scope`, and its constants those that `env` has so far. Calls, casts and whatever
/// else no initialiser has are not walked.
///
/// # Errors
/// `AllocError` where memory runs out, and for a literal of 2^31 characters or more.
#[tactic(auto, using(crate::proofs::FoldedLemmas::folds))]
pub fn fold(alloc: Global, env: &Environment, scope: &Scope, e: &Expr) -> Result<Folded, AllocError>
    ensures { IfOk result (λ it. it ≡ constants.folded_of env.now scope.now e.now) }
{
    match e {
        Expr::Number(at, n) => Ok(number(env, scope, *at, *n)),
        Expr::Text(_, t) => text(alloc, t.characters()),
        Expr::Bool(_, b) => Ok(Folded::Gives(Scalar::Bool(*b))),
        Expr::Null(_) => Ok(Folded::Gives(Scalar::Null)),
        Expr::Name(x) => name(env, scope, x),
        Expr::Paren(_, e) => Ok(paren(fold(alloc, env, scope, e.get())?)),
        Expr::Field(o, f) => field(env, &fold(alloc, env, scope, o.get())?, f),
        Expr::Unary(_, op, e) => Ok(unary(*op, &fold(alloc, env, scope, e.get())?)),
        Expr::Binary(op, l, r) => {
            let l = fold(alloc, env, scope, l.get())?;
            let r = fold(alloc, env, scope, r.get())?;
            binary(alloc, *op, l, r)
        }
        Expr::Conditional(c, a, b) => {
            let c = fold(alloc, env, scope, c.get())?;
            let a = fold(alloc, env, scope, a.get())?;
            let b = fold(alloc, env, scope, b.get())?;
            Ok(conditional(&c, a, b))
        }
        Expr::This(_)
        | Expr::Call(_, _)
        | Expr::Super(_, _, _)
        | Expr::New(_, _, _)
        | Expr::NewArray(_, _, _, _)
        | Expr::Method(_, _, _)
        | Expr::Element(_, _)
        | Expr::Cast(_, _, _)
        | Expr::InstanceOf(_, _) => Ok(Folded::Other),
    }
}
