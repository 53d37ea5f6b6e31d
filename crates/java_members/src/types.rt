//! The types of declarations.

ghost use Rattle.std.specs.Prelude.{◌≡◌, [], IfErr, IfOk, OnOk};
ghost use Rattle.class_table.specs.Members.{types_of};
ghost use Rattle.java_exprs.specs.Attr.{of_rule};
ghost use Rattle.java_names.specs.Refusals.{Refuses};
ghost use Rattle.java_exprs.specs.Lookups as names;
ghost use Rattle.java_names.specs.Types as spec;

use core_tree::Ty;
use java_exprs::Environment;
use java_names::{resolve_type, type_of};
use java_syntax::{CheckError, ParamTree, TypeTree};
use sqlite_items::Items;
use std::alloc::{AllocError, Global};

/// The type that is spelled.
///
/// # Errors
/// `Fault` of rule 10 at its name, where that is unknown. `OutOfMemory` where memory runs out.
#[tactic(auto, using(java_exprs::proofs::RulesLemmas::one_place))]
pub fn known_type(alloc: Global, env: &Environment, tree: &TypeTree) -> Result<Ty, CheckError>
    ensures found { IfOk result (λ t. t ≡ spec.declared_type env.now.symbols.names tree.now) }
    ensures known { OnOk result (names.unknown_type env.now tree.now ≡ []) }
    ensures fault { IfErr result (Refuses (of_rule 10 (names.unknown_type env.now tree.now) [])) }
{
    resolve_type(alloc, &env.symbols.names, tree)
}

/// The type of a declaration; `Void` where its name is unknown.
pub fn declared_type(alloc: Global, env: &Environment, tree: &TypeTree) -> Result<Ty, AllocError>
    ensures { IfOk result (λ t. t ≡ spec.declared_type env.now.symbols.names tree.now) }
{
    match type_of(alloc, &env.symbols.names, tree)? {
        Some(ty) => Ok(ty),
        None => Ok(Ty::Void),
    }
}

/// The type of a result; `Void` where there is none, and where its name is unknown.
pub fn answer_type(
    alloc: Global,
    env: &Environment,
    answer: &Option<TypeTree>,
) -> Result<Ty, AllocError>
    ensures { IfOk result (λ t. t ≡ spec.answer_type env.now.symbols.names answer.now) }
{
    match answer {
        Some(tree) => declared_type(alloc, env, tree),
        None => Ok(Ty::Void),
    }
}

/// The types of parameters in order; `Void` where the name of one is unknown.
pub fn param_types(
    alloc: Global,
    env: &Environment,
    params: &[ParamTree],
) -> Result<Items<Ty>, AllocError>
    ensures { IfOk result (λ types. types ≡ spec.declared_types env.now.symbols.names (types_of params.now)) }
{
    let mut types = Items::new(alloc);
    for param in params {
        types.push(declared_type(alloc, env, &param.ty)?)?;
    }
    Ok(types)
}
