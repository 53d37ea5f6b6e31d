//! What the declarations of members break, without their initialisers and bodies (JLS 8.3, 8.4, 8.8).

ghost use Rattle.std.specs.Prelude.{◌≡◌, ◌++◌, [], flat_map};
ghost use Rattle.java_exprs.specs.Attr.{of_rule};
ghost use Rattle.java_names.specs.Refusals.{Allows};
ghost use Rattle.java_exprs.specs.Lookups as names;
ghost use Rattle.java_members.specs.Declarations as spec;
ghost use Rattle.core_tree.specs.BuiltIn.{first_class};
ghost use Rattle.java_members.specs.Files.{of_members};
ghost use Rattle.java_syntax.specs.declared.class.Member.TheVariants as member;

use crate::modifiers::{check_field_words, check_maker_words, check_method_words};
use crate::parameters::declare_params;
use crate::types::known_type;
use core_tree::forms::{is_boolean, is_int, is_string};
use core_tree::{FIRST_CLASS, Ty};
use java_exprs::Environment;
use java_exprs::fault::fault;
use java_names::{following, is_static, maker_scope, method_scope, type_of};
use java_statements::exceptions::{check_all_known, check_all_throwable};
use java_syntax::{CheckError, ClassTree, FieldTree, MakerTree, Member, MethodTree, TypeTree};
use std::alloc::Global;

// Whether a constant may have this type.
fn is_constant_type(ty: &Ty) -> bool
    ensures { result ≡ spec.is_constant_type ty.now }
{
    is_int(ty) || is_boolean(ty) || is_string(ty)
}

// Checks that a constant has a type that it may have.
fn check_constant_type(
    alloc: Global,
    env: &Environment,
    field: &FieldTree,
) -> Result<(), CheckError>
    ensures { Allows (of_rule 20 (spec.constant_type_20 env.now field.now) []) result }
{
    if !is_static(&field.mods) {
        return Ok(());
    }
    let Some(ty) = type_of(alloc, &env.symbols.names, &field.ty)? else {
        return Ok(());
    };
    if is_constant_type(&ty) {
        Ok(())
    } else {
        Err(fault(20, field.name.at))
    }
}

// Checks that a type is known.
fn check_type(alloc: Global, env: &Environment, tree: &TypeTree) -> Result<(), CheckError>
    ensures { Allows (of_rule 10 (names.unknown_type env.now tree.now) []) result }
{
    known_type(alloc, env, tree)?;
    Ok(())
}

// Checks that the type of a result is known.
fn check_answer(
    alloc: Global,
    env: &Environment,
    answer: &Option<TypeTree>,
) -> Result<(), CheckError>
    ensures { Allows (of_rule 10 (spec.answer_10 env.now answer.now) []) result }
{
    match answer {
        Some(tree) => check_type(alloc, env, tree),
        None => Ok(()),
    }
}

// Checks that the declaration of a field or constant breaks no rule.
#[tactic(auto, using(java_exprs::proofs::RulesLemmas::both_places, java_exprs::proofs::RulesLemmas::joins))]
fn check_field(
    alloc: Global,
    env: &Environment,
    class: u32,
    field: &FieldTree,
) -> Result<(), CheckError>
    ensures { Allows (spec.declaration_faults env.now class (member.Field field.now)) result }
{
    check_type(alloc, env, &field.ty)?;
    check_field_words(&field.mods, field.name.at)?;
    check_constant_type(alloc, env, field)
}

// Checks that the declaration of a method breaks no rule.
#[tactic(auto, using(java_exprs::proofs::RulesLemmas::both_places, java_exprs::proofs::RulesLemmas::joins))]
fn check_method(
    alloc: Global,
    env: &Environment,
    class: u32,
    method: &MethodTree,
) -> Result<(), CheckError>
    ensures { Allows (spec.declaration_faults env.now class (member.Method method.now)) result }
{
    check_answer(alloc, env, &method.answer)?;
    let mut scope = method_scope(alloc, &env.symbols, class, method)?;
    declare_params(alloc, env, method.params.as_slice(), &mut scope)?;
    check_all_known(env, method.throws.as_slice())?;
    check_all_throwable(env, method.throws.as_slice())?;
    check_method_words(&method.mods, method.name.at)
}

// Checks that the declaration of a constructor breaks no rule.
#[tactic(auto, using(java_exprs::proofs::RulesLemmas::both_places, java_exprs::proofs::RulesLemmas::joins))]
fn check_maker(
    alloc: Global,
    env: &Environment,
    class: u32,
    maker: &MakerTree,
) -> Result<(), CheckError>
    ensures { Allows (spec.declaration_faults env.now class (member.Maker maker.now)) result }
{
    let mut scope = maker_scope(alloc, class)?;
    declare_params(alloc, env, maker.params.as_slice(), &mut scope)?;
    check_all_known(env, maker.throws.as_slice())?;
    check_all_throwable(env, maker.throws.as_slice())?;
    check_maker_words(&maker.mods, maker.name.at)
}

// Checks that the declaration of a member of class number `class` breaks no rule.
fn check_member(
    alloc: Global,
    env: &Environment,
    class: u32,
    member: &Member,
) -> Result<(), CheckError>
    ensures { Allows (spec.declaration_faults env.now class member.now) result }
{
    match member {
        Member::Field(field) => check_field(alloc, env, class, field),
        Member::Method(method) => check_method(alloc, env, class, method),
        Member::Maker(maker) => check_maker(alloc, env, class, maker),
        Member::Empty => Ok(()),
    }
}

// Checks that the declarations of members of class number `class` break no rule.
fn check_members(
    alloc: Global,
    env: &Environment,
    class: u32,
    members: &[Member],
) -> Result<(), CheckError>
    ensures { Allows (flat_map (spec.declaration_faults env.now class) members.now) result }
{
    for member in members {
        check_member(alloc, env, class, member)?;
    }
    Ok(())
}

/// Checks that the declarations of a file's members break no rule, without their initialisers and bodies.
///
/// # Errors
/// `Fault` of rule 10 where a type is unknown or two parameters have one name, of rule 11 where a class after `throws`
/// isn't Throwable or below it, and of rule 20 where the words before a member, or the type of a constant, don't suit;
/// each at the name. `OutOfMemory` where memory runs out.
#[tactic(auto, unfolding(crate::specs::Files::of_members))]
pub fn check_declarations(
    alloc: Global,
    env: &Environment,
    classes: &[ClassTree],
) -> Result<(), CheckError>
    ensures { Allows (of_members (spec.declaration_faults env.now) first_class classes.now) result }
{
    let mut class = FIRST_CLASS;
    for tree in classes {
        check_members(alloc, env, class, tree.members.as_slice())?;
        class = following(class)?;
    }
    Ok(())
}
