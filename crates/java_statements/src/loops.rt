//! Loops (JLS 14.12 to 14.14).

ghost use Rattle.std.specs.Prelude.{◌≡◌, map};
ghost use Rattle.java_syntax.specs.declared.statement.Stmt.TheOpen.{Stmt-F};
ghost use Rattle.java_statements.specs.Effects.{looped};
ghost use Rattle.java_statements.specs.Outcomes.{Gives};
ghost use Rattle.java_statements.specs.Statements.{effect, effect_at};

use crate::conditions::{condition, optional_condition};
use crate::statements::{body, stmt};
use core_tree::Stmt as Step;
use java_exprs::Environment;
use java_names::Scope;
use java_syntax::{CheckError, Expr, Stmt};
use sqlite_items::Boxed;
use std::alloc::Global;

// The body of a loop: the locals that it declares end with it.
#[cycle(statements)]
#[tactic(auto, unfolding(crate::specs::Effects::looped))]
fn repeated(
    alloc: Global,
    env: &Environment,
    scope: &mut Scope,
    s: &Stmt,
) -> Result<Boxed<Step>, CheckError>
    ensures { Gives (looped (effect env.now s.now) scope.old) scope.new result }
{
    let mark = scope.mark();
    scope.in_loop = true;
    let step = stmt(alloc, env, scope, s)?;
    scope.back(mark);
    Ok(Boxed::new(alloc, step)?)
}

/// `while (c) s`, resolved (JLS 14.12). It is handed the whole statement beside its parts, so that they are seen to be
/// smaller; so are the others here.
///
/// # Errors
/// `Fault` of a rule that is broken in it. `OutOfMemory` where memory runs out. The scope then serves no more.
#[cycle(statements)]
#[tactic(auto, using(java_exprs::proofs::RulesLemmas::joins, crate::proofs::FaultLemmas::around))]
pub fn while_loop(
    alloc: Global,
    env: &Environment,
    scope: &mut Scope,
    whole: &Stmt,
    test: &Expr,
    turn: &Stmt,
) -> Result<Step, CheckError>
    requires { whole.now ≡ Stmt.While test.now turn.now }
    ensures { Gives (effect_at env.now (Stmt-F.While test.now (effect env.now turn.now)) scope.old) scope.new result }
{
    let test = condition(alloc, env, scope, test)?;
    let turn = repeated(alloc, env, scope, turn)?;
    Ok(Step::While(test, turn))
}

/// `do s while (c);`, resolved (JLS 14.13). The condition is read first: no local of the body is in scope in it.
///
/// # Errors
/// `Fault` of a rule that is broken in it. `OutOfMemory` where memory runs out. The scope then serves no more.
#[cycle(statements)]
#[tactic(auto, using(java_exprs::proofs::RulesLemmas::joins, crate::proofs::FaultLemmas::around))]
pub fn do_loop(
    alloc: Global,
    env: &Environment,
    scope: &mut Scope,
    whole: &Stmt,
    turn: &Stmt,
    test: &Expr,
) -> Result<Step, CheckError>
    requires { whole.now ≡ Stmt.DoWhile turn.now test.now }
    ensures { Gives (effect_at env.now (Stmt-F.DoWhile (effect env.now turn.now) test.now) scope.old) scope.new result }
{
    let test = condition(alloc, env, scope, test)?;
    let turn = repeated(alloc, env, scope, turn)?;
    Ok(Step::DoWhile(turn, test))
}

/// `for (start; c; update) s`, resolved (JLS 14.14.1). What the start declares is in scope up to the end of the loop.
///
/// # Errors
/// `Fault` of a rule that is broken in it. `OutOfMemory` where memory runs out. The scope then serves no more.
#[cycle(statements)]
#[tactic(auto, using(java_exprs::proofs::RulesLemmas::joins, crate::proofs::FaultLemmas::around))]
pub fn for_loop(
    alloc: Global,
    env: &Environment,
    scope: &mut Scope,
    whole: &Stmt,
    start: &[Stmt],
    test: &Option<Expr>,
    update: &[Stmt],
    turn: &Stmt,
) -> Result<Step, CheckError>
    requires { whole.now ≡ Stmt.For start.now test.now update.now turn.now }
    ensures { Gives (effect_at env.now (Stmt-F.For (map (effect env.now) start.now) test.now (map (effect env.now) update.now) (effect env.now turn.now)) scope.old) scope.new result }
{
    let mark = scope.mark();
    let start = body(alloc, env, scope, start)?;
    let test = optional_condition(alloc, env, scope, test)?;
    let update = body(alloc, env, scope, update)?;
    let turn = repeated(alloc, env, scope, turn)?;
    scope.back(mark);
    Ok(Step::For(start, test, update, turn))
}
