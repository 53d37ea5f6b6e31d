//! Instance fields (JLS 8.3).

ghost use Rattle.std.specs.Prelude.{◌≡◌, [], IfErr, IfOk, OnOk, option_map};
ghost use Rattle.std.specs.Option.{option_map_or};
ghost use Rattle.java_names.specs.Refusals.{Refuses};
ghost use Rattle.java_exprs.specs.Checks.{attr};
ghost use Rattle.java_members.specs.Bodies as spec;
ghost use Rattle.java_names.specs.Scope.{maker_scope};

use crate::types::declared_type;
use core_tree::{Expr, Field, Shared};
use java_exprs::Environment;
use java_exprs::arguments::fit;
use java_exprs::expression::value;
use java_exprs::literals::text_of;
use java_names::maker_scope;
use java_syntax::{CheckError, FieldTree};
use std::alloc::Global;

// The initialiser of a field of class number `class`, checked and resolved.
#[tactic(auto, using(java_exprs::proofs::RulesLemmas::joins))]
fn start(
    alloc: Global,
    env: &Environment,
    class: u32,
    field: &FieldTree,
    e: &java_syntax::Expr,
) -> Result<Expr, CheckError>
    ensures core { IfOk result (λ core. core ≡ (attr env.now (maker_scope class) e.now).core) }
    ensures clear { OnOk result (spec.start_faults env.now class field.now e.now ≡ []) }
    ensures fault { IfErr result (Refuses (spec.start_faults env.now class field.now e.now)) }
{
    let scope = maker_scope(alloc, class)?;
    let want = declared_type(alloc, env, &field.ty)?;
    let value = value(alloc, env, &scope, e)?;
    fit(env, &value, &want)?;
    Ok(value.core)
}

// The initialiser of a field of class number `class`, if it has one.
fn optional_start(
    alloc: Global,
    env: &Environment,
    class: u32,
    field: &FieldTree,
) -> Result<Option<Shared<Expr>>, CheckError>
    ensures core { IfOk result (λ core. core ≡ option_map (λ e. (attr env.now (maker_scope class) e).core) field.now.value) }
    ensures clear { OnOk result (spec.field_faults env.now class field.now ≡ []) }
    ensures fault { IfErr result (Refuses (spec.field_faults env.now class field.now)) }
{
    match &field.value {
        Some(e) => {
            let core = start(alloc, env, class, field, e)?;
            Ok(Some(Shared::new(alloc, core)?))
        }
        None => Ok(None),
    }
}

/// A field that class number `class` declares, with its initialiser, checked and resolved.
///
/// # Errors
/// `Fault` of a rule that the initialiser breaks, at the token where it does. `OutOfMemory` where memory runs out.
pub fn field(
    alloc: Global,
    env: &Environment,
    class: u32,
    tree: &FieldTree,
) -> Result<Field, CheckError>
    ensures field { IfOk result (λ f. f ≡ spec.core_field env.now class tree.now) }
    ensures clear { OnOk result (spec.field_faults env.now class tree.now ≡ []) }
    ensures fault { IfErr result (Refuses (spec.field_faults env.now class tree.now)) }
{
    let name = text_of(alloc, tree.name.name.characters())?;
    let ty = declared_type(alloc, env, &tree.ty)?;
    let start = optional_start(alloc, env, class, tree)?;
    Ok(Field {
        name,
        ty,
        start,
        owner: class,
    })
}
