//! Casts and `instanceof` (JLS 15.16, 15.20.2).

ghost use Rattle.std.specs.Prelude.{◌≡◌, [], Some, IfOk, IfErr, OnOk};
ghost use Rattle.java_syntax.specs.declared.expression.Expr.TheOpen.{Expr-F};
ghost use Rattle.java_exprs.specs.Attr.{of_rule};
ghost use Rattle.java_names.specs.Refusals.{Allows, Refuses};
ghost use Rattle.java_exprs.specs.Checks.{Checks, attr_at, of_value};
ghost use Rattle.java_exprs.specs.Lookups as names;
ghost use Rattle.java_exprs.specs.Rules as rule;

use crate::environment::Environment;
use crate::fault::fault;
use crate::operators::wants_int;
use crate::typed::{Form, Typed};
use crate::value::Value;
use core_tree::forms::{is_object, is_string};
use core_tree::{Expr, Ty};
use java_denotes::Denotation;
use java_denotes::assignability::is_either_way;
use java_names::{Scope, resolve_type};
use java_syntax::{BaseType, CheckError, Ident, TypeTree};
use sqlite_items::Boxed;
use std::alloc::{AllocError, Global};

/// The type that is spelled.
///
/// # Errors
/// `Fault` of rule 10 at its name, where that is unknown. `OutOfMemory` where memory runs out.
#[tactic(auto, using(crate::proofs::RulesLemmas::one_place))]
pub fn named_type(alloc: Global, env: &Environment, tree: &TypeTree) -> Result<Ty, CheckError>
    ensures found { IfOk result (λ t. names.type_named env.now tree.now ≡ Some t) }
    ensures known { OnOk result (names.unknown_type env.now tree.now ≡ []) }
    ensures fault { IfErr result (Refuses (of_rule 10 (names.unknown_type env.now tree.now) [])) }
{
    resolve_type(alloc, &env.symbols.names, tree)
}

// Checks that a value may be cast to the type.
fn check_cast(env: &Environment, at: u32, to: &Ty, e: &Value) -> Result<(), CheckError>
    ensures { Allows (of_rule 15 (rule.cast_15 env.now at (Some to.now) (of_value e.now)) []) result }
{
    if !is_object(to) || !is_either_way(&env.symbols, &e.ty, to) {
        return Err(fault(15, at));
    }
    Ok(())
}

/// `(T) e`
#[tactic(auto, using(crate::proofs::RulesLemmas::joins))]
pub fn cast(
    alloc: Global,
    env: &Environment,
    scope: &Scope,
    at: u32,
    tree: &TypeTree,
    e: Value,
) -> Result<Typed, CheckError>
    ensures { Checks (attr_at env.now scope.now (Expr-F.Cast at tree.now (of_value e))) result }
{
    let ty = named_type(alloc, env, tree)?;
    check_cast(env, at, &ty, &e)?;
    let again = match ty.copy(alloc) {
        Ok(again) => again,
        Err(_) => return Err(CheckError::OutOfMemory),
    };
    Ok(Typed {
        at,
        denotes: Denotation::Value(again),
        form: Form::Other,
        needs_minus: false,
        core: Expr::Cast(ty, Boxed::new(alloc, e.core)?),
    })
}

/// `e instanceof T`
#[tactic(auto, using(crate::proofs::RulesLemmas::joins))]
pub fn instance_of(
    alloc: Global,
    env: &Environment,
    scope: &Scope,
    e: Value,
    tree: &TypeTree,
) -> Result<Typed, CheckError>
    ensures { Checks (attr_at env.now scope.now (Expr-F.InstanceOf (of_value e) tree.now)) result }
{
    let ty = named_type(alloc, env, tree)?;
    if !(is_object(&ty) || is_string(&ty)) {
        return Err(fault(11, e.at));
    }
    check_cast(env, e.at, &ty, &e)?;
    Ok(Typed {
        at: e.at,
        denotes: Denotation::Value(Ty::Bool),
        form: Form::Other,
        needs_minus: false,
        core: Expr::Is(ty, Boxed::new(alloc, e.core)?),
    })
}
