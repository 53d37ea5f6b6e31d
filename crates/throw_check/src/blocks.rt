//! Blocks and `if` (JLS 14.2, 14.9).

ghost use Rattle.std.specs.Prelude.{◌≡◌, ◌++◌, OnOk, map, option_map};
ghost use Rattle.throw_check.specs.Points.{expr_points};
ghost use Rattle.throw_check.specs.Statements as spec;
ghost use Rattle.throw_check.specs.Statements.{in_order, points, with_points};
ghost use Rattle.java_names.specs.Refusals.{Allows};
ghost use Rattle.throw_check.specs.Walks.{faults_left};

use crate::handlers::Handlers;
use crate::jumps::evaluate;
use crate::locals::{here, leave};
use crate::statements::{body, stmt};
use java_names::{Scope, Symbols};
use java_syntax::{CheckError, Expr, Stmt};
use sqlite_items::Boxed;
use std::alloc::Global;

/// `{ .. }`: its locals end with it.
///
/// # Errors
/// As `stmt`, for one of its statements.
#[cycle(statements)]
#[tactic(auto, using(crate::proofs::ScopeLemmas::back_all))]
pub fn block(
    alloc: Global,
    symbols: &Symbols,
    scope: &mut Scope,
    handlers: &mut Handlers,
    list: &[Stmt],
) -> Result<(), CheckError>
    ensures scope { OnOk result (scope.new ≡ scope.old) }
    ensures handlers { OnOk result (handlers.new ≡ handlers.old) }
    ensures handled { Allows (faults_left symbols.now handlers.old (in_order symbols.now (map (with_points symbols.now) list.now) scope.old)) result }
{
    let entry = here(scope);
    body(alloc, symbols, scope, handlers, list)?;
    leave(scope, entry);
    Ok(())
}

/// A statement by itself: the locals that it declares end with it.
///
/// # Errors
/// As `stmt`.
#[cycle(statements)]
#[tactic(auto, using(crate::proofs::ScopeLemmas::back_behind))]
pub fn inside(
    alloc: Global,
    symbols: &Symbols,
    scope: &mut Scope,
    handlers: &mut Handlers,
    s: &Stmt,
) -> Result<(), CheckError>
    ensures scope { OnOk result (scope.new ≡ scope.old) }
    ensures handlers { OnOk result (handlers.new ≡ handlers.old) }
    ensures handled { Allows (faults_left symbols.now handlers.old (points symbols.now s.now scope.old)) result }
{
    let entry = here(scope);
    stmt(alloc, symbols, scope, handlers, s)?;
    leave(scope, entry);
    Ok(())
}

/// A statement by itself, that may be left out.
///
/// # Errors
/// As `stmt`, where there is one.
#[cycle(statements)]
#[tactic(auto, using(crate::proofs::LeftLemmas::left_none))]
pub fn branch(
    alloc: Global,
    symbols: &Symbols,
    scope: &mut Scope,
    handlers: &mut Handlers,
    s: &Option<Boxed<Stmt>>,
) -> Result<(), CheckError>
    ensures scope { OnOk result (scope.new ≡ scope.old) }
    ensures handlers { OnOk result (handlers.new ≡ handlers.old) }
    ensures handled { Allows (faults_left symbols.now handlers.old (spec.branch (option_map (with_points symbols.now) s.now) scope.old)) result }
{
    match s {
        Some(s) => inside(alloc, symbols, scope, handlers, s.get()),
        None => Ok(()),
    }
}

/// `if (c) s else t` or `if (c) s`. It is handed the whole statement beside its parts, so that they are seen to be
/// smaller.
///
/// # Errors
/// As `stmt`.
#[cycle(statements)]
#[tactic(auto, using(crate::proofs::LeftLemmas::joins))]
pub fn choice(
    alloc: Global,
    symbols: &Symbols,
    scope: &mut Scope,
    handlers: &mut Handlers,
    whole: &Stmt,
    test: &Expr,
    then: &Stmt,
    other: &Option<Boxed<Stmt>>,
) -> Result<(), CheckError>
    requires { whole.now ≡ Stmt.If test.now then.now other.now }
    ensures scope { OnOk result (scope.new ≡ scope.old) }
    ensures handlers { OnOk result (handlers.new ≡ handlers.old) }
    ensures handled { Allows (faults_left symbols.now handlers.old (expr_points symbols.now scope.old test.now ++ (points symbols.now then.now scope.old ++ spec.branch (option_map (with_points symbols.now) other.now) scope.old))) result }
{
    evaluate(alloc, symbols, scope, handlers, test)?;
    inside(alloc, symbols, scope, handlers, then)?;
    branch(alloc, symbols, scope, handlers, other)
}
