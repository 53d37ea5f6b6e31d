//! Loops (JLS 14.12 to 14.14).

ghost use Rattle.std.specs.Prelude.{◌≡◌, ◌++◌, OnOk, map};
ghost use Rattle.throw_check.specs.Points.{expr_points};
ghost use Rattle.throw_check.specs.Statements.{behind_all, in_order, points, turn_points, with_points};
ghost use Rattle.java_names.specs.Refusals.{Allows};
ghost use Rattle.throw_check.specs.Walks.{faults_left};

use crate::blocks::{block, inside};
use crate::expression::optional;
use crate::handlers::Handlers;
use crate::jumps::evaluate;
use crate::locals::{here, leave};
use crate::statements::body;
use java_names::{Scope, Symbols};
use java_syntax::{CheckError, Expr, Stmt};
use std::alloc::Global;

/// `while (c) s`
///
/// # Errors
/// As `stmt`.
#[cycle(statements)]
#[tactic(auto, using(crate::proofs::LeftLemmas::joins))]
pub fn while_loop(
    alloc: Global,
    symbols: &Symbols,
    scope: &mut Scope,
    handlers: &mut Handlers,
    whole: &Stmt,
    test: &Expr,
    turn: &Stmt,
) -> Result<(), CheckError>
    requires { whole.now ≡ Stmt.While test.now turn.now }
    ensures scope { OnOk result (scope.new ≡ scope.old) }
    ensures handlers { OnOk result (handlers.new ≡ handlers.old) }
    ensures handled { Allows (faults_left symbols.now handlers.old (expr_points symbols.now scope.old test.now ++ points symbols.now turn.now scope.old)) result }
{
    evaluate(alloc, symbols, scope, handlers, test)?;
    inside(alloc, symbols, scope, handlers, turn)
}

/// `do s while (c);`
///
/// # Errors
/// As `stmt`.
#[cycle(statements)]
#[tactic(auto, using(crate::proofs::LeftLemmas::joins))]
pub fn do_loop(
    alloc: Global,
    symbols: &Symbols,
    scope: &mut Scope,
    handlers: &mut Handlers,
    whole: &Stmt,
    turn: &Stmt,
    test: &Expr,
) -> Result<(), CheckError>
    requires { whole.now ≡ Stmt.DoWhile turn.now test.now }
    ensures scope { OnOk result (scope.new ≡ scope.old) }
    ensures handlers { OnOk result (handlers.new ≡ handlers.old) }
    ensures handled { Allows (faults_left symbols.now handlers.old (points symbols.now turn.now scope.old ++ expr_points symbols.now scope.old test.now)) result }
{
    inside(alloc, symbols, scope, handlers, turn)?;
    evaluate(alloc, symbols, scope, handlers, test)
}

/// `for (start; c; update) s`: what the start declares is in scope up to the end of the loop.
///
/// # Errors
/// As `stmt`.
#[cycle(statements)]
#[tactic(auto, using(crate::proofs::LeftLemmas::joins, crate::proofs::ScopeLemmas::back_all))]
pub fn for_loop(
    alloc: Global,
    symbols: &Symbols,
    scope: &mut Scope,
    handlers: &mut Handlers,
    whole: &Stmt,
    start: &[Stmt],
    test: &Option<Expr>,
    update: &[Stmt],
    turn: &Stmt,
) -> Result<(), CheckError>
    requires { whole.now ≡ Stmt.For start.now test.now update.now turn.now }
    ensures scope { OnOk result (scope.new ≡ scope.old) }
    ensures handlers { OnOk result (handlers.new ≡ handlers.old) }
    ensures handled { Allows (faults_left symbols.now handlers.old (in_order symbols.now (map (with_points symbols.now) start.now) scope.old ++ turn_points symbols.now test.now (map (with_points symbols.now) update.now) (with_points symbols.now turn.now) (behind_all symbols.now start.now scope.old))) result }
{
    let entry = here(scope);
    body(alloc, symbols, scope, handlers, start)?;
    optional(alloc, symbols, scope, handlers, test)?;
    block(alloc, symbols, scope, handlers, update)?;
    inside(alloc, symbols, scope, handlers, turn)?;
    leave(scope, entry);
    Ok(())
}
