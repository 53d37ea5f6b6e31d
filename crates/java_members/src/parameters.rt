//! Parameters, which are the first locals of a body (JLS 8.4.1).

ghost use Rattle.std.specs.Prelude.{◌≡◌, ◌++◌, [], None, OnOk};
ghost use Rattle.java_exprs.specs.Attr.{of_rule};
ghost use Rattle.java_names.specs.Refusals.{Allows};
ghost use Rattle.java_exprs.specs.Lookups as names;
ghost use Rattle.java_names.specs.Scope as scoped;
ghost use Rattle.java_members.specs.Declarations as spec;
ghost use Rattle.java_statements.specs.Statements as statement;

use crate::types::known_type;
use core_tree::Shared;
use java_exprs::Environment;
use java_exprs::fault::fault;
use java_names::Scope;
use java_syntax::{CheckError, Ident, ParamTree};
use std::alloc::Global;

// Checks that no local in scope has this name.
fn check_new(scope: &Scope, name: &Ident) -> Result<(), CheckError>
    ensures fresh { OnOk result (scoped.local_of scope.now name.now.name ≡ None) }
    ensures again { Allows (of_rule 10 (statement.again_10 scope.now name.now) []) result }
{
    match scope.local(&name.name) {
        Some(_) => Err(fault(10, name.at)),
        None => Ok(()),
    }
}

// Declares a parameter.
#[tactic(auto, using(java_exprs::proofs::RulesLemmas::both_places, java_exprs::proofs::RulesLemmas::joins))]
fn declare_param(
    alloc: Global,
    env: &Environment,
    param: &ParamTree,
    scope: &mut Scope,
) -> Result<(), CheckError>
    ensures scope { OnOk result (scope.new ≡ spec.with_param env.now param.now scope.old) }
    ensures fault { Allows (of_rule 10 (names.unknown_type env.now param.now.ty ++ statement.again_10 scope.old param.now.name) []) result }
{
    let ty = known_type(alloc, env, &param.ty)?;
    check_new(scope, &param.name)?;
    scope.declare(param.name.name.clone()?, Shared::new(alloc, ty)?)?;
    Ok(())
}

/// Declares the parameters of a method or constructor in the scope of its body.
///
/// # Errors
/// `Fault` of rule 10 at the name of a type that is unknown, or of a parameter whose name another has. `OutOfMemory`
/// where memory runs out. After an error the scope serves no more.
#[tactic(auto, using(java_exprs::proofs::RulesLemmas::both_places, java_exprs::proofs::RulesLemmas::joins), unfolding(crate::specs::Declarations::with_params, crate::specs::Declarations::params_10))]
pub fn declare_params(
    alloc: Global,
    env: &Environment,
    params: &[ParamTree],
    scope: &mut Scope,
) -> Result<(), CheckError>
    ensures scope { OnOk result (scope.new ≡ spec.with_params env.now params.now scope.old) }
    ensures fault { Allows (of_rule 10 (spec.params_10 env.now params.now scope.old) []) result }
{
    for param in params {
        declare_param(alloc, env, param, scope)?;
    }
    Ok(())
}
