//! `try` (JLS 14.20).

ghost use Rattle.std.specs.Prelude.{◌≡◌, ◌++◌, [], Some, map, option_map, length, IfOk, IfErr, OnOk};
ghost use Rattle.java_syntax.specs.declared.statement.Stmt.TheOpen.{Stmt-F};
ghost use Rattle.java_names.specs.Scope.{declared};
ghost use Rattle.java_exprs.specs.Attr.{of_rule};
ghost use Rattle.java_names.specs.Refusals.{Refuses};
ghost use Rattle.java_exprs.specs.Lookups.{class_named};
ghost use Rattle.java_statements.specs.Effects as effects;
ghost use Rattle.java_statements.specs.Outcomes.{Gives};
ghost use Rattle.java_statements.specs.Statements as spec;
ghost use Rattle.java_statements.specs.Statements.{catch_effect, effect, effect_at};

use crate::blocks::{inside, optional};
use crate::exceptions::throwable;
use crate::locals::declare;
use crate::statements::stmt;
use core_tree::{Catch, Shared, Stmt as Step, Ty};
use java_exprs::Environment;
use java_names::Scope;
use java_syntax::{CatchTree, CheckError, Ident, Stmt};
use sqlite_items::{Boxed, Items};
use std::alloc::Global;

/// The local of a catch clause: the class that the clause takes, and the local's number.
#[derive(Drop)]
struct Caught {
    class: u32,
    slot: u32,
}

// The local of a catch clause, in scope from now on.
#[tactic(auto, using(java_exprs::proofs::RulesLemmas::joins, crate::proofs::FaultLemmas::refuses_places))]
fn enter_clause(
    alloc: Global,
    env: &Environment,
    scope: &mut Scope,
    class: &Ident,
    name: &Ident,
) -> Result<Caught, CheckError>
    ensures class { IfOk result (λ caught. class_named env.now class.now.name ≡ Some caught.class) }
    ensures slot { IfOk result (λ caught. caught.slot ≡ length scope.old.slots) }
    ensures scope { OnOk result (scope.new ≡ declared scope.old name.now.name (spec.caught_type env.now class.now)) }
    ensures known { OnOk result (spec.exception_10 env.now class.now ++ spec.again_10 scope.old name.now ≡ []) }
    ensures below { OnOk result (spec.exception_11 env.now class.now ≡ []) }
    ensures fault { IfErr result (Refuses (of_rule 10 (spec.exception_10 env.now class.now ++ spec.again_10 scope.old name.now) (of_rule 11 (spec.exception_11 env.now class.now) []))) }
{
    let class = throwable(env, class)?;
    let slot = declare(scope, name, Shared::new(alloc, Ty::Class(class))?)?;
    Ok(Caught { class, slot })
}

// `catch (C x) { .. }`: its local ends with it.
#[cycle(statements)]
#[tactic(auto, using(java_exprs::proofs::RulesLemmas::joins, crate::proofs::EffectLemmas::effect_catch))]
fn clause(
    alloc: Global,
    env: &Environment,
    scope: &mut Scope,
    tree: &CatchTree,
) -> Result<Catch, CheckError>
    ensures handler { IfOk result (λ handler. catch_effect env.now tree.now scope.old ≡ record { after = scope.new; handler = handler; faults = [] }) }
    ensures fault { IfErr result (Refuses (catch_effect env.now tree.now scope.old).faults) }
{
    let mark = scope.mark();
    let Caught { class, slot } = enter_clause(alloc, env, scope, &tree.class, &tree.name)?;
    let step = stmt(alloc, env, scope, tree.body.get())?;
    scope.back(mark);
    let body = Boxed::new(alloc, step)?;
    Ok(Catch { class, slot, body })
}

// Catch clauses, each in the scope after the one before it.
#[cycle(statements)]
#[tactic(auto, using(crate::proofs::EffectLemmas::clauses_step))]
fn clauses(
    alloc: Global,
    env: &Environment,
    scope: &mut Scope,
    trees: &[CatchTree],
) -> Result<Items<Catch>, CheckError>
    ensures handlers { IfOk result (λ handlers. effects.clauses (map (catch_effect env.now) trees.now) scope.old ≡ record { after = scope.new; handlers = handlers; faults = [] }) }
    ensures fault { IfErr result (Refuses (effects.clauses (map (catch_effect env.now) trees.now) scope.old).faults) }
{
    let mut handlers = Items::new(alloc);
    for tree in trees {
        handlers.push(clause(alloc, env, scope, tree)?)?;
    }
    Ok(handlers)
}

/// `try { .. } catch (C x) { .. } finally { .. }`, resolved (JLS 14.20). It is handed the whole statement beside its
/// parts, so that they are seen to be smaller.
///
/// # Errors
/// `Fault` of a rule that is broken in it. `OutOfMemory` where memory runs out. The scope then serves no more.
#[cycle(statements)]
#[tactic(auto, using(java_exprs::proofs::RulesLemmas::joins))]
pub fn try_block(
    alloc: Global,
    env: &Environment,
    scope: &mut Scope,
    whole: &Stmt,
    tried: &Stmt,
    catches: &[CatchTree],
    last: &Option<Boxed<Stmt>>,
) -> Result<Step, CheckError>
    requires { whole.now ≡ Stmt.Try tried.now catches.now last.now }
    ensures { Gives (effect_at env.now (Stmt-F.Try (effect env.now tried.now) (map (catch_effect env.now) catches.now) (option_map (effect env.now) last.now)) scope.old) scope.new result }
{
    let tried = inside(alloc, env, scope, tried)?;
    let handlers = clauses(alloc, env, scope, catches)?;
    let last = optional(alloc, env, scope, last)?;
    Ok(Step::Try(tried, handlers, last))
}
