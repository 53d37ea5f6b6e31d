//! `break`, `continue`, `return` and `throw` (JLS 14.15 to 14.18), and `super(..)` where it may not stand.

ghost use Rattle.std.specs.Prelude.{◌≡◌, [], None, Some};
ghost use Rattle.java_syntax.specs.declared.statement.Stmt.TheOpen.{Stmt-F};
ghost use Rattle.java_statements.specs.Outcomes.{Gives};
ghost use Rattle.java_statements.specs.Statements.{effect_at};

use core_tree::forms::is_void;
use core_tree::{BuiltIn, Stmt as Step, Ty};
use java_exprs::Environment;
use java_exprs::arguments::fit;
use java_exprs::expression::value;
use java_exprs::fault::fault;
use java_names::Scope;
use java_syntax::{CheckError, Expr};
use sqlite_items::Boxed;
use std::alloc::Global;

/// `break;`
///
/// # Errors
/// `Fault` of rule 17 outside a loop.
pub fn break_loop(env: &Environment, scope: &Scope, at: u32) -> Result<Step, CheckError>
    ensures { Gives (effect_at env.now (Stmt-F.Break at) scope.now) scope.now result }
{
    if !scope.in_loop {
        return Err(fault(17, at));
    }
    Ok(Step::Break)
}

/// `continue;`
///
/// # Errors
/// `Fault` of rule 17 outside a loop.
pub fn continue_loop(env: &Environment, scope: &Scope, at: u32) -> Result<Step, CheckError>
    ensures { Gives (effect_at env.now (Stmt-F.Continue at) scope.now) scope.now result }
{
    if !scope.in_loop {
        return Err(fault(17, at));
    }
    Ok(Step::Continue)
}

/// `super(..);` other than as the first statement of a constructor (JLS 8.8.7). That one is read with the constructor.
///
/// # Errors
/// `Fault` of rule 14, always.
#[tactic(auto, using(java_exprs::proofs::RulesLemmas::joins))]
pub fn stray_super(
    env: &Environment,
    scope: &Scope,
    at: u32,
    given: &[Expr],
) -> Result<Step, CheckError>
    ensures { Gives (effect_at env.now (Stmt-F.Super at given.now) scope.now) scope.now result }
{
    Err(fault(14, at))
}

// `return;`
fn return_nothing(env: &Environment, scope: &Scope, at: u32) -> Result<Step, CheckError>
    ensures { Gives (effect_at env.now (Stmt-F.Return at None) scope.now) scope.now result }
{
    if !is_void(scope.answer.get()) {
        return Err(fault(11, at));
    }
    Ok(Step::Return(None))
}

// `return e;`
#[tactic(auto, using(java_exprs::proofs::RulesLemmas::joins))]
fn return_value(
    alloc: Global,
    env: &Environment,
    scope: &Scope,
    at: u32,
    e: &Expr,
) -> Result<Step, CheckError>
    ensures { Gives (effect_at env.now (Stmt-F.Return at (Some e.now)) scope.now) scope.now result }
{
    let e = value(alloc, env, scope, e)?;
    let want = scope.answer.get();
    if is_void(want) {
        return Err(fault(11, e.at));
    }
    fit(env, &e, want)?;
    Ok(Step::Return(Some(Boxed::new(alloc, e.core)?)))
}

/// `return;` or `return e;`
///
/// # Errors
/// `Fault` of a rule that is broken in it. `OutOfMemory` where memory runs out.
pub fn answer(
    alloc: Global,
    env: &Environment,
    scope: &Scope,
    at: u32,
    e: &Option<Expr>,
) -> Result<Step, CheckError>
    ensures { Gives (effect_at env.now (Stmt-F.Return at e.now) scope.now) scope.now result }
{
    match e {
        Some(e) => return_value(alloc, env, scope, at, e),
        None => return_nothing(env, scope, at),
    }
}

/// `throw e;`
///
/// # Errors
/// `Fault` of a rule that is broken in it. `OutOfMemory` where memory runs out.
#[tactic(auto, using(java_exprs::proofs::RulesLemmas::joins))]
pub fn throw(alloc: Global, env: &Environment, scope: &Scope, e: &Expr) -> Result<Step, CheckError>
    ensures { Gives (effect_at env.now (Stmt-F.Throw e.now) scope.now) scope.now result }
{
    let e = value(alloc, env, scope, e)?;
    fit(env, &e, &Ty::Class(BuiltIn::Throwable.number()))?;
    Ok(Step::Throw(Boxed::new(alloc, e.core)?))
}
