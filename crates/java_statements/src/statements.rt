//! Statements, and the body of a method or a constructor (JLS 14).

ghost use Rattle.std.specs.Prelude.{◌≡◌, [], map, IfOk, IfErr};
ghost use Rattle.java_names.specs.Refusals.{Refuses};
ghost use Rattle.java_statements.specs.Effects.{sequence};
ghost use Rattle.java_statements.specs.Outcomes.{Gives};
ghost use Rattle.java_statements.specs.Statements.{effect};

use crate::assignments::{assign, count};
use crate::blocks::{block, choice};
use crate::expression_statements::eval;
use crate::jumps::{answer, break_loop, continue_loop, stray_super, throw};
use crate::locals::local;
use crate::loops::{do_loop, for_loop, while_loop};
use crate::tries::try_block;
use core_tree::Stmt as Step;
use java_exprs::Environment;
use java_names::Scope;
use java_syntax::{CheckError, Stmt};
use sqlite_items::Items;
use std::alloc::Global;

/// A statement, checked and resolved. What it declares is in the scope from then on.
///
/// # Errors
/// `Fault` of a rule that is broken in it. `OutOfMemory` where memory runs out. The scope then serves no more.
#[cycle(statements)]
#[tactic(auto, using(crate::proofs::EffectLemmas::effects))]
pub fn stmt(
    alloc: Global,
    env: &Environment,
    scope: &mut Scope,
    s: &Stmt,
) -> Result<Step, CheckError>
    ensures { Gives (effect env.now s.now scope.old) scope.new result }
{
    match s {
        Stmt::Empty => Ok(Step::Empty),
        Stmt::Block(all) => block(alloc, env, scope, all.as_slice()),
        Stmt::Local(tree) => local(alloc, env, scope, tree),
        Stmt::Assign(target, op, e) => assign(alloc, env, scope, target, *op, e),
        Stmt::Step(op, _, target) => count(alloc, env, scope, *op, target),
        Stmt::Eval(e) => eval(alloc, env, scope, e),
        Stmt::Super(at, given) => stray_super(env, scope, *at, given.as_slice()),
        Stmt::If(test, then, other) => choice(alloc, env, scope, s, test, then.get(), other),
        Stmt::While(test, turn) => while_loop(alloc, env, scope, s, test, turn.get()),
        Stmt::DoWhile(turn, test) => do_loop(alloc, env, scope, s, turn.get(), test),
        Stmt::For(start, test, update, turn) => for_loop(
            alloc,
            env,
            scope,
            s,
            start.as_slice(),
            test,
            update.as_slice(),
            turn.get(),
        ),
        Stmt::Return(at, e) => answer(alloc, env, scope, *at, e),
        Stmt::Break(at) => break_loop(env, scope, *at),
        Stmt::Continue(at) => continue_loop(env, scope, *at),
        Stmt::Throw(e) => throw(alloc, env, scope, e),
        Stmt::Try(tried, catches, last) => {
            try_block(alloc, env, scope, s, tried.get(), catches.as_slice(), last)
        }
    }
}

/// The statements of a body or a block, each checked and resolved in the scope after the one before it.
///
/// # Errors
/// `Fault` of a rule that is broken in one of them. `OutOfMemory` where memory runs out. The scope then serves no
/// more.
#[cycle(statements)]
#[tactic(auto, using(crate::proofs::EffectLemmas::sequence_step))]
pub fn body(
    alloc: Global,
    env: &Environment,
    scope: &mut Scope,
    statements: &[Stmt],
) -> Result<Items<Step>, CheckError>
    ensures steps { IfOk result (λ steps. sequence (map (effect env.now) statements.now) scope.old ≡ record { after = scope.new; steps = steps; faults = [] }) }
    ensures fault { IfErr result (Refuses (sequence (map (effect env.now) statements.now) scope.old).faults) }
{
    let mut steps = Items::new(alloc);
    for s in statements {
        steps.push(stmt(alloc, env, scope, s)?)?;
    }
    Ok(steps)
}
