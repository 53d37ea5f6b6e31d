//! `try` (JLS 14.20).

ghost use Rattle.std.specs.Prelude.{◌≡◌, ◌++◌, OnOk, IfOk, option_map};
ghost use Rattle.throw_check.specs.Statements as spec;
ghost use Rattle.throw_check.specs.Statements.{points, uncaught, with_points};
ghost use Rattle.java_names.specs.Refusals.{Allows};
ghost use Rattle.throw_check.specs.Walks.{classes_of, clauses_points, faults_left, inside_try};

use crate::blocks::{branch, inside};
use crate::handlers::Handlers;
use crate::locals::{declare_caught, here, leave};
use crate::statements::stmt;
use java_names::{Numbering, Scope, Symbols};
use java_syntax::{CatchTree, CheckError, Stmt};
use sqlite_items::Boxed;
use std::alloc::{AllocError, Global};

// The known classes that catch clauses name.
fn caught(
    alloc: Global,
    symbols: &Symbols,
    clauses: &[CatchTree],
) -> Result<Numbering<u32>, AllocError>
    ensures { IfOk result (λ classes. classes ≡ classes_of symbols.now clauses.now) }
{
    let mut classes = Numbering::new(alloc);
    for clause in clauses {
        if let Some(class) = symbols.class_number(&clause.class.name) {
            classes.push(class, class)?;
        }
    }
    Ok(classes)
}

// Goes into the block of a `try` with these clauses.
fn enter(
    alloc: Global,
    symbols: &Symbols,
    handlers: &mut Handlers,
    clauses: &[CatchTree],
) -> Result<(), AllocError>
    ensures { OnOk result (handlers.new ≡ inside_try handlers.old (classes_of symbols.now clauses.now)) }
{
    let classes = caught(alloc, symbols, clauses)?;
    handlers.enter(classes)
}

// `catch (C x) { .. }`: its local ends with it.
#[cycle(statements)]
#[tactic(auto, using(crate::proofs::StatementLemmas::points_clause, crate::proofs::ScopeLemmas::back_local))]
fn clause(
    alloc: Global,
    symbols: &Symbols,
    scope: &mut Scope,
    handlers: &mut Handlers,
    tree: &CatchTree,
) -> Result<(), CheckError>
    ensures scope { OnOk result (scope.new ≡ scope.old) }
    ensures handlers { OnOk result (handlers.new ≡ handlers.old) }
    ensures handled { Allows (faults_left symbols.now handlers.old (spec.clause symbols.now tree.now scope.old)) result }
{
    let entry = here(scope);
    declare_caught(alloc, symbols, scope, &tree.name, &tree.class)?;
    stmt(alloc, symbols, scope, handlers, tree.body.get())?;
    leave(scope, entry);
    Ok(())
}

// Catch clauses.
#[cycle(statements)]
fn each_clause(
    alloc: Global,
    symbols: &Symbols,
    scope: &mut Scope,
    handlers: &mut Handlers,
    list: &[CatchTree],
) -> Result<(), CheckError>
    ensures scope { OnOk result (scope.new ≡ scope.old) }
    ensures handlers { OnOk result (handlers.new ≡ handlers.old) }
    ensures handled { Allows (faults_left symbols.now handlers.old (clauses_points symbols.now list.now scope.old)) result }
{
    for tree in list {
        clause(alloc, symbols, scope, handlers, tree)?;
    }
    Ok(())
}

/// `try { .. } catch (C x) { .. } finally { .. }`: what its clauses catch is handled in its block, and not in the
/// clauses and after `finally`.
///
/// # Errors
/// As `stmt`.
#[cycle(statements)]
#[tactic(auto, using(crate::proofs::LeftLemmas::joins, crate::proofs::LeftLemmas::left_try, crate::proofs::LeftLemmas::outside_inside))]
pub fn try_block(
    alloc: Global,
    symbols: &Symbols,
    scope: &mut Scope,
    handlers: &mut Handlers,
    whole: &Stmt,
    tried: &Stmt,
    clauses: &[CatchTree],
    last: &Option<Boxed<Stmt>>,
) -> Result<(), CheckError>
    requires { whole.now ≡ Stmt.Try tried.now clauses.now last.now }
    ensures scope { OnOk result (scope.new ≡ scope.old) }
    ensures handlers { OnOk result (handlers.new ≡ handlers.old) }
    ensures handled { Allows (faults_left symbols.now handlers.old (uncaught symbols.now (classes_of symbols.now clauses.now) (points symbols.now tried.now scope.old) ++ (clauses_points symbols.now clauses.now scope.old ++ spec.branch (option_map (with_points symbols.now) last.now) scope.old))) result }
{
    enter(alloc, symbols, handlers, clauses)?;
    inside(alloc, symbols, scope, handlers, tried)?;
    handlers.leave();
    each_clause(alloc, symbols, scope, handlers, clauses)?;
    branch(alloc, symbols, scope, handlers, last)
}
