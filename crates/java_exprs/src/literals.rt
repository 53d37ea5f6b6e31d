//! Literals and `this` (JLS 15.8).

ghost use Rattle.std.specs.Prelude.{◌≡◌, ◌≤◌, pos, IfOk, IfErr};
ghost use Rattle.pb_int.specs.Int32.{wrap};
ghost use Rattle.java_syntax.specs.declared.expression.Expr.TheOpen.{Expr-F};
ghost use Rattle.java_exprs.specs.Checks.{Checks, attr_at};

use crate::environment::Environment;
use crate::fault::fault;
use crate::typed::{Form, Typed};
use core_tree::{Expr, Text, Ty};
use java_denotes::Denotation;
use java_names::Scope;
use java_syntax::CheckError;
use java_tokens::Name;
use std::alloc::Global;

/// The greatest number that a minus can stand before.
pub const GREATEST: u64 = 2_147_483_648;

/// The number as an `int`; 2147483648 is wrapped.
#[tactic(auto, using(crate::proofs::NumberLemmas::numbers))]
pub fn int_of(n: u64) -> i32
    requires { n ≤ 2_147_483_648 }
    ensures { result ≡ wrap (pos n) }
{
    if n == GREATEST { i32::MIN } else { n as i32 }
}

/// A number.
pub fn number(env: &Environment, scope: &Scope, at: u32, n: u64) -> Result<Typed, CheckError>
    ensures { Checks (attr_at env.now scope.now (Expr-F.Number at n)) result }
{
    if n > GREATEST {
        return Err(fault(19, at));
    }
    Ok(Typed {
        at,
        denotes: Denotation::Value(Ty::Int),
        form: Form::Other,
        needs_minus: n == GREATEST,
        core: Expr::Int(int_of(n)),
    })
}

/// `true` or `false`.
pub fn boolean(env: &Environment, scope: &Scope, at: u32, b: bool) -> Result<Typed, CheckError>
    ensures { Checks (attr_at env.now scope.now (Expr-F.Bool at b)) result }
{
    Ok(Typed {
        at,
        denotes: Denotation::Value(Ty::Bool),
        form: Form::Other,
        needs_minus: false,
        core: Expr::Bool(b),
    })
}

/// `null`
pub fn null(env: &Environment, scope: &Scope, at: u32) -> Result<Typed, CheckError>
    ensures { Checks (attr_at env.now scope.now (Expr-F.Null at)) result }
{
    Ok(Typed {
        at,
        denotes: Denotation::Value(Ty::Null),
        form: Form::Other,
        needs_minus: false,
        core: Expr::Null,
    })
}

/// `this`
pub fn this(env: &Environment, scope: &Scope, at: u32) -> Result<Typed, CheckError>
    ensures { Checks (attr_at env.now scope.now (Expr-F.This at)) result }
{
    if scope.is_static {
        return Err(fault(14, at));
    }
    Ok(Typed {
        at,
        denotes: Denotation::Value(Ty::Class(scope.class)),
        form: Form::Other,
        needs_minus: false,
        core: Expr::This,
    })
}

/// A String literal.
pub fn text(
    alloc: Global,
    env: &Environment,
    scope: &Scope,
    at: u32,
    characters: &Name,
) -> Result<Typed, CheckError>
    ensures { Checks (attr_at env.now scope.now (Expr-F.Text at characters.now)) result }
{
    Ok(Typed {
        at,
        denotes: Denotation::Value(Ty::Text),
        form: Form::Other,
        needs_minus: false,
        core: Expr::Text(text_of(alloc, characters.characters())?),
    })
}

/// The text with these characters. `OutOfMemory` where memory runs out, or too many characters for a text.
#[tactic(auto, using(crate::proofs::NumberLemmas::code_units_bound))]
pub fn text_of(alloc: Global, characters: &[char]) -> Result<Text, CheckError>
    ensures text { IfOk result (λ text. text ≡ characters.now) }
    ensures memory { IfErr result (λ e. e ≡ CheckError.OutOfMemory) }
{
    if characters.len() >= 1 << 31 {
        return Err(CheckError::OutOfMemory);
    }
    match Text::new(alloc, characters.to_vec(alloc)?) {
        Ok(text) => Ok(text),
        Err(_) => Err(CheckError::OutOfMemory),
    }
}
