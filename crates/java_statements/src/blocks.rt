//! Blocks and `if` (JLS 14.2, 14.4.2, 14.9).

ghost use Rattle.std.specs.Prelude.{◌≡◌, [], map, option_map, IfOk, IfErr};
ghost use Rattle.java_syntax.specs.declared.statement.Stmt.TheOpen.{Stmt-F};
ghost use Rattle.java_names.specs.Refusals.{Refuses};
ghost use Rattle.java_statements.specs.Effects.{branch, inner};
ghost use Rattle.java_statements.specs.Outcomes.{Gives};
ghost use Rattle.java_statements.specs.Statements.{effect, effect_at};

use crate::conditions::condition;
use crate::statements::{body, stmt};
use core_tree::Stmt as Step;
use java_exprs::Environment;
use java_names::Scope;
use java_syntax::{CheckError, Expr, Stmt};
use sqlite_items::Boxed;
use std::alloc::Global;

/// `{ .. }`, resolved. Its locals end with it (JLS 6.3, 14.2).
///
/// # Errors
/// `Fault` of a rule that is broken in it. `OutOfMemory` where memory runs out. The scope then serves no more.
#[cycle(statements)]
#[tactic(auto, using(java_exprs::proofs::RulesLemmas::joins))]
pub fn block(
    alloc: Global,
    env: &Environment,
    scope: &mut Scope,
    statements: &[Stmt],
) -> Result<Step, CheckError>
    ensures { Gives (effect_at env.now (Stmt-F.Block (map (effect env.now) statements.now)) scope.old) scope.new result }
{
    let mark = scope.mark();
    let steps = body(alloc, env, scope, statements)?;
    scope.back(mark);
    Ok(Step::Block(steps))
}

/// A statement by itself, resolved: the locals that it declares end with it (JLS 6.3).
///
/// # Errors
/// `Fault` of a rule that is broken in it. `OutOfMemory` where memory runs out. The scope then serves no more.
#[cycle(statements)]
#[tactic(auto, unfolding(crate::specs::Effects::inner))]
pub fn inside(
    alloc: Global,
    env: &Environment,
    scope: &mut Scope,
    s: &Stmt,
) -> Result<Boxed<Step>, CheckError>
    ensures { Gives (inner (effect env.now s.now) scope.old) scope.new result }
{
    let mark = scope.mark();
    let step = stmt(alloc, env, scope, s)?;
    scope.back(mark);
    Ok(Boxed::new(alloc, step)?)
}

/// A statement by itself that may be left out, resolved.
///
/// # Errors
/// As `inside`, where there is one.
#[cycle(statements)]
#[tactic(auto, unfolding(crate::specs::Effects::branch))]
pub fn optional(
    alloc: Global,
    env: &Environment,
    scope: &mut Scope,
    s: &Option<Boxed<Stmt>>,
) -> Result<Option<Boxed<Step>>, CheckError>
    ensures step { IfOk result (λ step. branch (option_map (effect env.now) s.now) scope.old ≡ record { after = scope.new; step = step; faults = [] }) }
    ensures fault { IfErr result (Refuses (branch (option_map (effect env.now) s.now) scope.old).faults) }
{
    match s {
        Some(s) => Ok(Some(inside(alloc, env, scope, s.get())?)),
        None => Ok(None),
    }
}

/// `if (c) s else t` or `if (c) s`, resolved (JLS 14.9). It is handed the whole statement beside its parts, so that
/// they are seen to be smaller.
///
/// # Errors
/// `Fault` of a rule that is broken in it. `OutOfMemory` where memory runs out. The scope then serves no more.
#[cycle(statements)]
#[tactic(auto, using(java_exprs::proofs::RulesLemmas::joins, crate::proofs::FaultLemmas::around))]
pub fn choice(
    alloc: Global,
    env: &Environment,
    scope: &mut Scope,
    whole: &Stmt,
    test: &Expr,
    then: &Stmt,
    other: &Option<Boxed<Stmt>>,
) -> Result<Step, CheckError>
    requires { whole.now ≡ Stmt.If test.now then.now other.now }
    ensures { Gives (effect_at env.now (Stmt-F.If test.now (effect env.now then.now) (option_map (effect env.now) other.now)) scope.old) scope.new result }
{
    let test = condition(alloc, env, scope, test)?;
    let then = inside(alloc, env, scope, then)?;
    let other = optional(alloc, env, scope, other)?;
    Ok(Step::If(test, then, other))
}
