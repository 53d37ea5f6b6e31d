//! Statements, and the body of a method or a constructor (JLS 11.2.2, 14).

ghost use Rattle.std.specs.Prelude.{◌≡◌, OnOk, map};
ghost use Rattle.java_names.specs.Types.{declared_type};
ghost use Rattle.throw_check.specs.Statements.{behind, behind_all, in_order, optional_points, points, with_local, with_points};
ghost use Rattle.java_names.specs.Refusals.{Allows};
ghost use Rattle.throw_check.specs.Walks.{faults_left};

use crate::blocks::{block, choice};
use crate::expression::{each, optional};
use crate::handlers::Handlers;
use crate::jumps::{evaluate, evaluate_both, throw};
use crate::locals::declare_local;
use crate::loops::{do_loop, for_loop, while_loop};
use crate::tries::try_block;
use java_names::{Scope, Symbols};
use java_syntax::{CheckError, LocalTree, Stmt};
use std::alloc::Global;

// A declaration of a local, which is in scope in its own initialiser.
fn local(
    alloc: Global,
    symbols: &Symbols,
    scope: &mut Scope,
    handlers: &Handlers,
    tree: &LocalTree,
) -> Result<(), CheckError>
    ensures scope { OnOk result (scope.new ≡ with_local scope.old tree.now.name (declared_type symbols.now.names tree.now.ty)) }
    ensures handled { Allows (faults_left symbols.now handlers.now (optional_points symbols.now (with_local scope.old tree.now.name (declared_type symbols.now.names tree.now.ty)) tree.now.value)) result }
{
    declare_local(alloc, symbols, scope, tree)?;
    optional(alloc, symbols, scope, handlers, &tree.value)
}

/// Checks that the exceptions of a statement are handled. What it declares is in the scope from then on.
///
/// # Errors
/// `Fault` of rule 23 at a `throw`, a call or a `new` in it that may throw an exception that breaks the rule.
/// `OutOfMemory` where memory runs out. The scope and the handlers then serve no more.
#[cycle(statements)]
#[tactic(auto, using(crate::proofs::StatementLemmas::points_of_kinds, crate::proofs::StatementLemmas::behind_kinds, crate::proofs::LeftLemmas::left_none))]
pub fn stmt(
    alloc: Global,
    symbols: &Symbols,
    scope: &mut Scope,
    handlers: &mut Handlers,
    s: &Stmt,
) -> Result<(), CheckError>
    ensures scope { OnOk result (scope.new ≡ behind symbols.now s.now scope.old) }
    ensures handlers { OnOk result (handlers.new ≡ handlers.old) }
    ensures handled { Allows (faults_left symbols.now handlers.old (points symbols.now s.now scope.old)) result }
{
    match s {
        Stmt::Empty | Stmt::Break(_) | Stmt::Continue(_) => Ok(()),
        Stmt::Block(all) => block(alloc, symbols, scope, handlers, all.as_slice()),
        Stmt::Local(tree) => local(alloc, symbols, scope, handlers, tree),
        Stmt::Assign(target, _, e) => evaluate_both(alloc, symbols, scope, handlers, target, e),
        Stmt::Step(_, _, e) | Stmt::Eval(e) => evaluate(alloc, symbols, scope, handlers, e),
        Stmt::Super(_, given) => each(alloc, symbols, scope, handlers, given.as_slice()),
        Stmt::If(test, then, other) => {
            choice(alloc, symbols, scope, handlers, s, test, then.get(), other)
        }
        Stmt::While(test, turn) => {
            while_loop(alloc, symbols, scope, handlers, s, test, turn.get())
        }
        Stmt::DoWhile(turn, test) => {
            do_loop(alloc, symbols, scope, handlers, s, turn.get(), test)
        }
        Stmt::For(start, test, update, turn) => for_loop(
            alloc,
            symbols,
            scope,
            handlers,
            s,
            start.as_slice(),
            test,
            update.as_slice(),
            turn.get(),
        ),
        Stmt::Return(_, e) => optional(alloc, symbols, scope, handlers, e),
        Stmt::Throw(e) => throw(alloc, symbols, scope, handlers, e),
        Stmt::Try(tried, clauses, last) => try_block(
            alloc,
            symbols,
            scope,
            handlers,
            s,
            tried.get(),
            clauses.as_slice(),
            last,
        ),
    }
}

/// Checks that the exceptions of statements are handled, each in the scope after the one before it.
///
/// # Errors
/// As `stmt`, for one of them.
#[cycle(statements)]
pub fn body(
    alloc: Global,
    symbols: &Symbols,
    scope: &mut Scope,
    handlers: &mut Handlers,
    list: &[Stmt],
) -> Result<(), CheckError>
    ensures scope { OnOk result (scope.new ≡ behind_all symbols.now list.now scope.old) }
    ensures handlers { OnOk result (handlers.new ≡ handlers.old) }
    ensures handled { Allows (faults_left symbols.now handlers.old (in_order symbols.now (map (with_points symbols.now) list.now) scope.old)) result }
{
    for s in list {
        stmt(alloc, symbols, scope, handlers, s)?;
    }
    Ok(())
}
