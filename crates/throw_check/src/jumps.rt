//! Statements that hold expressions alone (JLS 14.8, 14.17, 14.18).

ghost use Rattle.std.specs.Prelude.{◌≡◌, ◌++◌};
ghost use Rattle.java_denotes.specs.Known.{known_of};
ghost use Rattle.java_denotes.specs.Members as members;
ghost use Rattle.throw_check.specs.Points.{expr_points};
ghost use Rattle.throw_check.specs.Statements.{thrown_points};
ghost use Rattle.java_names.specs.Refusals.{Allows};
ghost use Rattle.throw_check.specs.Walks.{faults_left};

use crate::expression::expr;
use crate::handlers::Handlers;
use core_tree::forms::class_of;
use java_denotes::Known;
use java_names::{Scope, Symbols};
use java_syntax::{CheckError, Expr};
use std::alloc::Global;

/// Checks that the exceptions of an expression are handled.
///
/// # Errors
/// As `expr`.
pub fn evaluate(
    alloc: Global,
    symbols: &Symbols,
    scope: &Scope,
    handlers: &Handlers,
    e: &Expr,
) -> Result<(), CheckError>
    ensures { Allows (faults_left symbols.now handlers.now (expr_points symbols.now scope.now e.now)) result }
{
    match expr(alloc, symbols, scope, handlers, e) {
        Ok(_) => Ok(()),
        Err(error) => Err(error),
    }
}

/// Checks that the exceptions of two expressions are handled.
///
/// # Errors
/// As `expr`, for one of them.
#[tactic(auto, using(crate::proofs::LeftLemmas::joins))]
pub fn evaluate_both(
    alloc: Global,
    symbols: &Symbols,
    scope: &Scope,
    handlers: &Handlers,
    first: &Expr,
    second: &Expr,
) -> Result<(), CheckError>
    ensures { Allows (faults_left symbols.now handlers.now (expr_points symbols.now scope.now first.now ++ expr_points symbols.now scope.now second.now)) result }
{
    evaluate(alloc, symbols, scope, handlers, first)?;
    evaluate(alloc, symbols, scope, handlers, second)
}

// The class of an object; `None` of every other value.
fn object_class(e: &Known) -> Option<u32>
    ensures { result ≡ members.object_class e.now.denotes }
{
    match e.value_type() {
        Some(ty) => class_of(ty),
        None => None,
    }
}

// Checks that what is thrown is handled, at the word `throw` before it.
#[tactic(auto, using(crate::proofs::LeftLemmas::joins))]
fn check_thrown(symbols: &Symbols, handlers: &Handlers, thrown: &Known) -> Result<(), CheckError>
    ensures { Allows (faults_left symbols.now handlers.now (thrown_points thrown.now)) result }
{
    match object_class(thrown) {
        Some(class) => handlers.check(symbols, &[class], thrown.at.saturating_sub(1)),
        None => Ok(()),
    }
}

/// `throw e;`
///
/// # Errors
/// As `expr`; and `Fault` of rule 23 at the word `throw`, where the class of `e` is that of a checked exception that is
/// neither caught nor declared (JLS 11.2.2). `null` has no class.
#[tactic(auto, using(crate::proofs::LeftLemmas::joins))]
pub fn throw(
    alloc: Global,
    symbols: &Symbols,
    scope: &Scope,
    handlers: &Handlers,
    e: &Expr,
) -> Result<(), CheckError>
    ensures { Allows (faults_left symbols.now handlers.now (expr_points symbols.now scope.now e.now ++ thrown_points (known_of symbols.now scope.now e.now))) result }
{
    let thrown = expr(alloc, symbols, scope, handlers, e)?;
    check_thrown(symbols, handlers, &thrown)
}
