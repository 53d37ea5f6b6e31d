//! What a constructor does with the superclass (JLS 8.8.7).

ghost use Rattle.std.specs.Prelude.{◌≡◌, [], IfErr, IfOk, OnOk};
ghost use Rattle.java_exprs.specs.Attr.{of_rule, unless};
ghost use Rattle.java_names.specs.Lookups.{is_accessible};
ghost use Rattle.java_exprs.specs.Rules as rule;
ghost use Rattle.java_names.specs.Refusals.{Allows, Refuses};
ghost use Rattle.java_exprs.specs.Checks.{of_values};
ghost use Rattle.java_exprs.specs.Lookups as names;
ghost use Rattle.java_exprs.specs.Resolved as resolved;
ghost use Rattle.java_members.specs.Bodies as spec;

use core_tree::{Expr, Parent};
use java_exprs::arguments::{cores, fit_each};
use java_exprs::fault::fault;
use java_exprs::{Environment, Value};
use java_names::{MakerSymbol, is_accessible};
use java_syntax::CheckError;
use sqlite_items::{Boxed, Items};
use std::alloc::{AllocError, Global};

// The number of the superclass of class number `class`; `None` of Object, and where there is no such class.
fn superclass(env: &Environment, class: u32) -> Option<u32>
    ensures { result ≡ names.superclass_of env.now class }
{
    match env.symbols.class(class) {
        Some(symbol) => symbol.parent,
        None => None,
    }
}

// Checks that class number `class` may call this constructor with these arguments, at token number `at`.
#[tactic(auto, using(java_exprs::proofs::RulesLemmas::joins))]
fn check_maker(
    env: &Environment,
    class: u32,
    at: u32,
    given: &[Value],
    maker: &MakerSymbol,
) -> Result<(), CheckError>
    ensures { Allows (of_rule 11 (rule.wants_each env.now (of_values given.now) maker.now.params) (of_rule 13 (unless (is_accessible class maker.now.owner maker.now.is_private) at) [])) result }
{
    if !is_accessible(class, maker.owner, maker.is_private) {
        return Err(fault(13, at));
    }
    fit_each(env, given, maker.params.as_slice())
}

// Checks that class number `class` may call the constructor of class number `parent` with these arguments, at token
// number `at`.
#[tactic(auto, using(java_exprs::proofs::RulesLemmas::length_values))]
fn check_call(
    env: &Environment,
    class: u32,
    at: u32,
    given: &[Value],
    parent: u32,
) -> Result<(), CheckError>
    ensures { Allows (spec.parent_faults_of env.now class at (of_values given.now) parent) result }
{
    match env.symbols.maker(parent, given.len()) {
        Some(maker) => check_maker(env, class, at, given, maker),
        None => Err(fault(12, at)),
    }
}

// The first argument, resolved.
fn first_core(alloc: Global, given: Items<Value>) -> Result<Option<Boxed<Expr>>, AllocError>
    ensures { IfOk result (λ core. core ≡ resolved.first_core (of_values given)) }
{
    let mut given = given;
    if given.is_empty() {
        return Ok(None);
    }
    let first = given.remove(0);
    Ok(Some(Boxed::new(alloc, first.core)?))
}

// What the constructor of a built-in class with these arguments does.
fn built_in_parent(alloc: Global, parent: u32, given: Items<Value>) -> Result<Parent, AllocError>
    ensures { IfOk result (λ p. p ≡ spec.built_in_parent parent (of_values given)) }
{
    if parent == 0 {
        return Ok(Parent::Plain);
    }
    Ok(Parent::Message(first_core(alloc, given)?))
}

// The call of the constructor of class number `parent` with these arguments.
#[tactic(auto, using(java_exprs::proofs::RulesLemmas::length_values, java_exprs::proofs::RulesLemmas::cores_values))]
fn call(
    alloc: Global,
    env: &Environment,
    given: Items<Value>,
    parent: u32,
) -> Result<Parent, CheckError>
    ensures parent { IfOk result (λ p. p ≡ spec.core_parent_of env.now (of_values given) parent) }
    ensures memory { IfErr result (λ e. e ≡ CheckError.OutOfMemory) }
{
    let Some(maker) = env.symbols.maker(parent, given.len()) else {
        return Ok(Parent::Plain);
    };
    match maker.number {
        Some(number) => Ok(Parent::Maker(number, cores(alloc, given)?)),
        None => Ok(built_in_parent(alloc, parent, given)?),
    }
}

/// What a constructor of class number `class` does with the superclass, whose constructor it calls with these arguments
/// at token number `at` (JLS 8.8.7.1).
///
/// # Errors
/// `Fault` of rule 11 at an argument that doesn't fit, of rule 12 at the token where the superclass has no constructor
/// with that many parameters, and of rule 13 there where that one is private. `OutOfMemory` where memory runs out.
pub fn parent(
    alloc: Global,
    env: &Environment,
    class: u32,
    at: u32,
    given: Items<Value>,
) -> Result<Parent, CheckError>
    ensures parent { IfOk result (λ p. p ≡ spec.core_parent env.now class (of_values given)) }
    ensures clear { OnOk result (spec.parent_faults env.now class at (of_values given) ≡ []) }
    ensures fault { IfErr result (Refuses (spec.parent_faults env.now class at (of_values given))) }
{
    let Some(parent) = superclass(env, class) else {
        return Ok(Parent::Plain);
    };
    check_call(env, class, at, given.as_slice(), parent)?;
    call(alloc, env, given, parent)
}
