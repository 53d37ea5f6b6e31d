//! Calls (JLS 15.12).

ghost use Rattle.std.specs.Prelude.{◌≡◌, Some, IfOk, IfErr};
ghost use Rattle.core_tree.specs.declared.expr.Expr.TheVariants as core;
ghost use Rattle.java_syntax.specs.declared.expression.Expr.TheOpen.{Expr-F};
ghost use Rattle.java_exprs.specs.declared.qualifier.Qualifier.TheVariants as qualifier;
ghost use Rattle.java_denotes.specs.declared.through.Through.TheVariants as through;
ghost use Rattle.java_exprs.specs.Calls.{calling_of, call_attr, qualifier_of};
ghost use Rattle.java_exprs.specs.Checks.{Checks, attr_at, clean, of_value, of_values};

use crate::callee::callee;
use crate::environment::Environment;
use crate::fault::fault;
use crate::invocation::invocation;
use crate::library_calls::{print, text_call};
use crate::qualifier::{Qualifier, qualifier_of};
use crate::receiver::Receiver;
use crate::typed::{Form, Typed};
use crate::value::Value;
use core_tree::Expr;
use core_tree::forms::class_of;
use java_denotes::calls::answer;
use java_denotes::{Denotation, Through};
use java_names::Scope;
use java_syntax::{CheckError, Ident};
use sqlite_items::Items;
use std::alloc::Global;

// A call of the method of that name in the receiver's class.
fn called(
    alloc: Global,
    env: &Environment,
    scope: &Scope,
    receiver: Receiver,
    object: Expr,
    m: &Ident,
    arguments: Items<Value>,
) -> Result<Typed, CheckError>
    ensures { Checks (call_attr env.now scope.now receiver.at (calling_of receiver object m.now arguments)) result }
{
    let found = callee(env, scope, receiver, m, arguments.as_slice())?;
    let denotes = answer(alloc, found.answer.get())?;
    let core = invocation(alloc, env, receiver, object, m, arguments, found)?;
    Ok(Typed {
        at: receiver.at,
        denotes,
        form: Form::Call,
        needs_minus: false,
        core,
    })
}

/// `m(..)`, a method of the class that the call stands in.
///
/// # Errors
/// `Fault` of rules 10 to 14, at the method's name or at an argument. `OutOfMemory` where memory runs out.
#[tactic(auto, using(crate::proofs::CallLemmas::call_checks))]
pub fn call(
    alloc: Global,
    env: &Environment,
    scope: &Scope,
    m: &Ident,
    arguments: Items<Value>,
) -> Result<Typed, CheckError>
    ensures { Checks (attr_at env.now scope.now (Expr-F.Call m.now (of_values arguments))) result }
{
    let receiver = Receiver {
        at: m.at,
        through: Through::This,
        class: scope.class,
    };
    called(alloc, env, scope, receiver, Expr::This, m, arguments)
}

/// `super.m(..)`, where `at` is the place of `super`.
///
/// # Errors
/// `Fault` of rule 14 at `super` where there is no `this`, and of rules 10 to 13 at the method's name or at an
/// argument. `OutOfMemory` where memory runs out.
#[tactic(auto, using(crate::proofs::CallLemmas::super_checks, crate::proofs::CallLemmas::super_in_static))]
pub fn super_call(
    alloc: Global,
    env: &Environment,
    scope: &Scope,
    at: u32,
    m: &Ident,
    arguments: Items<Value>,
) -> Result<Typed, CheckError>
    ensures { Checks (attr_at env.now scope.now (Expr-F.Super at m.now (of_values arguments))) result }
{
    if scope.is_static {
        return Err(fault(14, at));
    }
    // No body stands in `Object`, the one class without a superclass.
    let Some(class) = env.symbols.superclass(scope.class) else {
        return Err(CheckError::OutOfMemory);
    };
    let receiver = Receiver {
        at,
        through: Through::Super,
        class,
    };
    called(alloc, env, scope, receiver, Expr::This, m, arguments)
}

// A call after a class, whose name is at token `at`.
fn behind_class(
    alloc: Global,
    env: &Environment,
    scope: &Scope,
    at: u32,
    class: u32,
    m: &Ident,
    arguments: Items<Value>,
) -> Result<Typed, CheckError>
    ensures { Checks (call_attr env.now scope.now at (calling_of (record { at = at; through = through.Class; class = class }) core.This m.now arguments)) result }
{
    let receiver = Receiver {
        at,
        through: Through::Class,
        class,
    };
    called(alloc, env, scope, receiver, Expr::This, m, arguments)
}

// A call after a value.
#[tactic(auto, using(crate::proofs::CallLemmas::object_checks, crate::proofs::CallLemmas::text_checks))]
fn behind_value(
    alloc: Global,
    env: &Environment,
    scope: &Scope,
    o: Value,
    m: &Ident,
    arguments: Items<Value>,
) -> Result<Typed, CheckError>
    ensures { Checks (attr_at env.now scope.now (Expr-F.Method (of_value o) m.now (of_values arguments))) result }
{
    match class_of(&o.ty) {
        Some(class) => {
            let receiver = Receiver {
                at: o.at,
                through: Through::Object,
                class,
            };
            called(alloc, env, scope, receiver, o.core, m, arguments)
        }
        None => text_call(alloc, env, o, m, arguments),
    }
}

// A call after a value, or after a call without a result.
#[tactic(auto, using(crate::proofs::CallLemmas::value_checks, crate::proofs::CallLemmas::value_refused))]
fn behind_part(
    alloc: Global,
    env: &Environment,
    scope: &Scope,
    o: Typed,
    m: &Ident,
    arguments: Items<Value>,
) -> Result<Typed, CheckError>
    requires { qualifier_of o.denotes ≡ Some qualifier.Value }
    ensures { Checks (attr_at env.now scope.now (Expr-F.Method (clean o) m.now (of_values arguments))) result }
{
    let o = o.value()?;
    behind_value(alloc, env, scope, o, m, arguments)
}

/// `o.m(..)`: a method of a class, of an object or of a String, or a print.
///
/// # Errors
/// `Fault` of rule 11 where `o` is a call without a result, and of rule 19 where it is the number 2147483648, at its
/// first token; of rules 10 to 14 at the method's name or at an argument. `OutOfMemory` where memory runs out.
pub fn method(
    alloc: Global,
    env: &Environment,
    scope: &Scope,
    o: Typed,
    m: &Ident,
    arguments: Items<Value>,
) -> Result<Typed, CheckError>
    ensures { Checks (attr_at env.now scope.now (Expr-F.Method (clean o) m.now (of_values arguments))) result }
{
    match qualifier_of(env, scope, &o, m, arguments.as_slice())? {
        Qualifier::Class(class) => behind_class(alloc, env, scope, o.at, class, m, arguments),
        Qualifier::Output => print(o.at, m, arguments),
        Qualifier::Value => behind_part(alloc, env, scope, o, m, arguments),
    }
}
