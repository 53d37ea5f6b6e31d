//! Declarations of locals (JLS 14.4).

ghost use Rattle.std.specs.Prelude.{◌≡◌, ◌++◌, [], length, IfOk, IfErr, OnOk};
ghost use Rattle.std.specs.Option.{option_map_or};
ghost use Rattle.java_syntax.specs.declared.statement.Stmt.TheOpen.{Stmt-F};
ghost use Rattle.java_names.specs.Scope.{declared};
ghost use Rattle.java_exprs.specs.Attr.{of_rule};
ghost use Rattle.java_names.specs.Refusals.{Refuses};
ghost use Rattle.java_exprs.specs.Checks.{attr};
ghost use Rattle.java_exprs.specs.Rules.{wants_type};
ghost use Rattle.java_statements.specs.Outcomes.{Gives};
ghost use Rattle.java_statements.specs.Statements as spec;
ghost use Rattle.java_statements.specs.Statements.{effect_at};

use core_tree::{Expr as Core, Shared, Stmt as Step, Ty};
use java_exprs::Environment;
use java_exprs::arguments::fit;
use java_exprs::casts::named_type;
use java_exprs::expression::value;
use java_exprs::fault::fault;
use java_names::Scope;
use java_syntax::{CheckError, Expr, Ident, LocalTree};
use sqlite_items::Boxed;
use std::alloc::Global;

/// A local that was declared: its number and its type.
#[derive(Drop)]
struct Entered {
    slot: u32,
    ty: Ty,
}

/// Declares a local of this type, where its name is that of no local in scope, and gives its number.
///
/// # Errors
/// `Fault` of rule 10 at the name, where a local in scope has it. `OutOfMemory` where memory runs out.
pub fn declare(scope: &mut Scope, name: &Ident, ty: Shared<Ty>) -> Result<u32, CheckError>
    ensures slot { IfOk result (λ slot. slot ≡ length scope.old.slots) }
    ensures scope { OnOk result (scope.new ≡ declared scope.old name.now.name ty) }
    ensures fresh { OnOk result (spec.again_10 scope.old name.now ≡ []) }
    ensures fault { IfErr result (Refuses (of_rule 10 (spec.again_10 scope.old name.now) [])) }
{
    if scope.local(&name.name).is_some() {
        return Err(fault(10, name.at));
    }
    Ok(scope.declare(name.name.clone()?, ty)?)
}

// The local of a declaration, in scope from now on.
#[tactic(auto, using(java_exprs::proofs::RulesLemmas::joins, java_exprs::proofs::RulesLemmas::both_places))]
fn enter(
    alloc: Global,
    env: &Environment,
    scope: &mut Scope,
    local: &LocalTree,
) -> Result<Entered, CheckError>
    ensures slot { IfOk result (λ local. local.slot ≡ length scope.old.slots) }
    ensures ty { IfOk result (λ found. found.ty ≡ spec.local_type env.now local.now) }
    ensures scope { OnOk result (scope.new ≡ spec.with_local env.now local.now scope.old) }
    ensures clear { OnOk result (spec.stmt_10 env.now (Stmt-F.Local local.now) scope.old ≡ []) }
    ensures fault { IfErr result (Refuses (of_rule 10 (spec.stmt_10 env.now (Stmt-F.Local local.now) scope.old) [])) }
{
    let ty = named_type(alloc, env, &local.ty)?;
    let again = match ty.copy(alloc) {
        Ok(again) => again,
        Err(_) => return Err(CheckError::OutOfMemory),
    };
    let slot = declare(scope, &local.name, Shared::new(alloc, again)?)?;
    Ok(Entered { slot, ty })
}

// The value that a local of this type begins with.
#[tactic(auto, using(java_exprs::proofs::RulesLemmas::joins))]
fn initial(
    alloc: Global,
    env: &Environment,
    scope: &Scope,
    ty: &Ty,
    e: &Option<Expr>,
) -> Result<Option<Boxed<Core>>, CheckError>
    ensures core { IfOk result (λ core. spec.optional_core env.now scope.now e.now ≡ core) }
    ensures clear { OnOk result (spec.optional_faults env.now scope.now e.now ≡ []) }
    ensures fits { OnOk result (option_map_or (λ e. wants_type env.now ty.now (attr env.now scope.now e)) e.now [] ≡ []) }
    ensures fault { IfErr result (Refuses (spec.optional_faults env.now scope.now e.now ++ of_rule 11 (option_map_or (λ e. wants_type env.now ty.now (attr env.now scope.now e)) e.now []) [])) }
{
    match e {
        Some(e) => {
            let e = value(alloc, env, scope, e)?;
            fit(env, &e, ty)?;
            Ok(Some(Boxed::new(alloc, e.core)?))
        }
        None => Ok(None),
    }
}

/// `T x = e;` or `T x;`. The local is in scope in its own initialiser.
///
/// # Errors
/// `Fault` of a rule that is broken in it. `OutOfMemory` where memory runs out.
#[tactic(auto, using(java_exprs::proofs::RulesLemmas::joins))]
pub fn local(
    alloc: Global,
    env: &Environment,
    scope: &mut Scope,
    local: &LocalTree,
) -> Result<Step, CheckError>
    ensures { Gives (effect_at env.now (Stmt-F.Local local.now) scope.old) scope.new result }
{
    let entered = enter(alloc, env, scope, local)?;
    let value = initial(alloc, env, scope, &entered.ty, &local.value)?;
    Ok(Step::Declare(entered.slot, entered.ty, value))
}
