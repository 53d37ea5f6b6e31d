//! The method that is called, and whether it may be called there (JLS 15.12.2, 15.12.3).

ghost use Rattle.std.specs.Prelude.{◌≡◌, ◌&&◌, ◌++◌, not, [], Some, IfOk, IfErr, OnOk};
ghost use Rattle.core_tree.specs.declared.expr.Expr.TheVariants as core;
ghost use Rattle.java_names.specs.Lookups.{is_accessible as accessible};
ghost use Rattle.java_exprs.specs.Attr.{of_rule, only_if, unless};
ghost use Rattle.java_exprs.specs.Calls.{calling_of, call_faults};
ghost use Rattle.java_names.specs.Refusals.{Allows, Refuses};
ghost use Rattle.java_exprs.specs.Checks.{of_values};
ghost use Rattle.java_exprs.specs.Rules as rule;

use crate::arguments::fit_each;
use crate::environment::Environment;
use crate::fault::fault;
use crate::receiver::Receiver;
use crate::value::Value;
use java_denotes::Through;
use java_denotes::calls::method_named;
use java_names::{MethodSymbol, Scope, is_accessible};
use java_syntax::{CheckError, Ident};

// Whether a method after a class or an object is of the other kind: on an object after a class, static on an object.
fn is_misplaced(through: Through, found: &MethodSymbol) -> bool
    ensures { result ≡ rule.is_misplaced through found.now }
{
    match through {
        Through::This => false,
        Through::Super | Through::Object => found.is_static,
        Through::Class => !found.is_static,
    }
}

// Whether an instance method has no object there but `this`.
fn needs_this(through: Through) -> bool
    ensures { result ≡ rule.needs_this through }
{
    matches!(through, Through::This | Through::Class)
}

// The method of that name that takes that many arguments.
#[tactic(auto, using(crate::proofs::RulesLemmas::length_values))]
fn find<'a>(
    env: &'a Environment,
    receiver: Receiver,
    m: &Ident,
    arguments: &[Value],
) -> Result<&'a MethodSymbol, CheckError>
    ensures found { IfOk result (λ found. rule.method_at env.now (calling_of receiver core.This m.now arguments.now) ≡ Some found.now) }
    ensures known { OnOk result (rule.calling_10 env.now (calling_of receiver core.This m.now arguments.now) ≡ []) }
    ensures number { OnOk result (rule.calling_12 env.now (calling_of receiver core.This m.now arguments.now) ≡ []) }
    ensures fault { IfErr result (Refuses (of_rule 10 (rule.calling_10 env.now (calling_of receiver core.This m.now arguments.now)) (of_rule 12 (rule.calling_12 env.now (calling_of receiver core.This m.now arguments.now)) []))) }
{
    if !env.symbols.has_method(receiver.class, &m.name) {
        return Err(fault(10, m.at));
    }
    let arity = arguments.len();
    match method_named(&env.symbols, receiver.class, &m.name, arity)? {
        Some(found) => Ok(found),
        None => Err(fault(12, m.at)),
    }
}

// Checks that the method is static or not, as what stands before the dot asks.
fn check_kind(through: Through, m: &Ident, found: &MethodSymbol) -> Result<(), CheckError>
    ensures { Allows (of_rule 11 (only_if (rule.is_misplaced through found.now) m.now.at) []) result }
{
    if is_misplaced(through, found) {
        return Err(fault(11, m.at));
    }
    Ok(())
}

// Checks that the method suits what stands before the dot and the arguments.
fn check_types(
    env: &Environment,
    through: Through,
    m: &Ident,
    arguments: &[Value],
    found: &MethodSymbol,
) -> Result<(), CheckError>
    ensures { Allows (of_rule 11 (only_if (rule.is_misplaced through found.now) m.now.at ++ rule.wants_each env.now (of_values arguments.now) found.now.params) []) result }
{
    check_kind(through, m, found)?;
    fit_each(env, arguments, found.params.as_slice())
}

// Checks that the method isn't private to another class.
fn check_access(scope: &Scope, m: &Ident, found: &MethodSymbol) -> Result<(), CheckError>
    ensures { Allows (of_rule 13 (unless (accessible scope.now.class found.now.owner found.now.is_private) m.now.at) []) result }
{
    if is_accessible(scope.class, found.owner, found.is_private) {
        return Ok(());
    }
    Err(fault(13, m.at))
}

// Checks that there is a `this` where the method needs it.
fn check_this(
    scope: &Scope,
    through: Through,
    m: &Ident,
    found: &MethodSymbol,
) -> Result<(), CheckError>
    ensures { Allows (of_rule 14 (only_if (scope.now.is_static && (rule.needs_this through && not found.now.is_static)) m.now.at) []) result }
{
    if scope.is_static && needs_this(through) && !found.is_static {
        return Err(fault(14, m.at));
    }
    Ok(())
}

/// The method that a call means: the one of that name and number of parameters in the receiver's class, its own or an
/// inherited one.
///
/// # Errors
/// `Fault` at the name, or at an argument: of rule 10 where the class has no method of that name, of rule 12 where it
/// has none with that many parameters, of rule 11 where the method is static on an object, isn't static but called
/// through a class, or an argument doesn't fit, of rule 13 where it is private to another class, and of rule 14 where
/// it needs a `this` that isn't there. `OutOfMemory` where memory runs out.
pub fn callee<'a>(
    env: &'a Environment,
    scope: &Scope,
    receiver: Receiver,
    m: &Ident,
    arguments: &[Value],
) -> Result<&'a MethodSymbol, CheckError>
    ensures found { IfOk result (λ found. rule.method_at env.now (calling_of receiver core.This m.now arguments.now) ≡ Some found.now) }
    ensures fits { OnOk result (call_faults env.now scope.now (calling_of receiver core.This m.now arguments.now) ≡ []) }
    ensures fault { IfErr result (Refuses (call_faults env.now scope.now (calling_of receiver core.This m.now arguments.now))) }
{
    let found = find(env, receiver, m, arguments)?;
    check_types(env, receiver.through, m, arguments, found)?;
    check_access(scope, m, found)?;
    check_this(scope, receiver.through, m, found)?;
    Ok(found)
}
