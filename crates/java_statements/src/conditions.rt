//! Conditions of `if` and of loops (JLS 14.9, 14.12 to 14.14).

ghost use Rattle.std.specs.Prelude.{◌≡◌, ◌++◌, [], IfOk, IfErr, OnOk};
ghost use Rattle.std.specs.Option.{option_map_or};
ghost use Rattle.java_exprs.specs.Attr.{of_rule, value_faults};
ghost use Rattle.java_names.specs.Refusals.{Refuses};
ghost use Rattle.java_exprs.specs.Checks.{attr};
ghost use Rattle.java_statements.specs.Statements as spec;

use core_tree::Expr as Core;
use java_exprs::Environment;
use java_exprs::expression::value;
use java_exprs::operators::wants_boolean;
use java_names::Scope;
use java_syntax::{CheckError, Expr};
use sqlite_items::Boxed;
use std::alloc::Global;

/// A condition, resolved.
///
/// # Errors
/// `Fault` of a rule that is broken in it, of rule 11 where it isn't a boolean. `OutOfMemory` where memory runs out.
#[tactic(auto, using(java_exprs::proofs::RulesLemmas::joins))]
pub fn condition(
    alloc: Global,
    env: &Environment,
    scope: &Scope,
    e: &Expr,
) -> Result<Boxed<Core>, CheckError>
    ensures core { IfOk result (λ core. (attr env.now scope.now e.now).core ≡ core) }
    ensures clear { OnOk result (value_faults (attr env.now scope.now e.now) ≡ []) }
    ensures boolean { OnOk result (spec.condition_11 env.now scope.now e.now ≡ []) }
    ensures fault { IfErr result (Refuses (value_faults (attr env.now scope.now e.now) ++ of_rule 11 (spec.condition_11 env.now scope.now e.now) [])) }
{
    let e = value(alloc, env, scope, e)?;
    wants_boolean(&e)?;
    Ok(Boxed::new(alloc, e.core)?)
}

/// A condition that may be left out, resolved.
///
/// # Errors
/// As `condition`, where there is one.
pub fn optional_condition(
    alloc: Global,
    env: &Environment,
    scope: &Scope,
    e: &Option<Expr>,
) -> Result<Option<Boxed<Core>>, CheckError>
    ensures core { IfOk result (λ core. spec.optional_core env.now scope.now e.now ≡ core) }
    ensures clear { OnOk result (spec.optional_faults env.now scope.now e.now ≡ []) }
    ensures boolean { OnOk result (option_map_or (spec.condition_11 env.now scope.now) e.now [] ≡ []) }
    ensures fault { IfErr result (Refuses (spec.optional_faults env.now scope.now e.now ++ of_rule 11 (option_map_or (spec.condition_11 env.now scope.now) e.now []) [])) }
{
    match e {
        Some(e) => Ok(Some(condition(alloc, env, scope, e)?)),
        None => Ok(None),
    }
}
