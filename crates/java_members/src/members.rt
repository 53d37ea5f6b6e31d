//! The initialisers and bodies of a file's members.

ghost use Rattle.std.specs.Prelude.{◌≡◌, ◌∷◌, ◌++◌, [], IfErr, IfOk, OnOk, flat_map};
ghost use Rattle.std.specs.List.{list_any};
ghost use Rattle.core_tree.specs.BuiltIn.{first_class};
ghost use Rattle.java_syntax.specs.declared.class.Member.TheVariants as member;
ghost use Rattle.java_names.specs.Refusals.{Allows, Refuses};
ghost use Rattle.java_members.specs.Answers as answer;
ghost use Rattle.java_members.specs.Bodies as body;
ghost use Rattle.java_members.specs.Files as spec;
ghost use Rattle.java_members.specs.Gathered as gathered;

use crate::constructors::{made_maker, maker};
use crate::fields::field;
use crate::methods::method;
use core_tree::{FIRST_CLASS, Maker, Method};
use java_exprs::Environment;
use java_names::{following, is_static};
use java_syntax::{CheckError, ClassTree, FieldTree, Member};
use sqlite_items::Items;
use std::alloc::Global;

/// Methods and constructors of a file, resolved.
#[derive(Drop)]
pub struct Bodies {
    pub methods: Items<Method>,
    pub makers: Items<Maker>,
}

// Checks that the initialiser of a field of class number `class` breaks no rule; those of constants were read before.
fn check_field(
    alloc: Global,
    env: &Environment,
    class: u32,
    tree: &FieldTree,
) -> Result<(), CheckError>
    ensures { Allows (spec.member_faults env.now class (member.Field tree.now)) result }
{
    if !is_static(&tree.mods) {
        field(alloc, env, class, tree)?;
    }
    Ok(())
}

// Adds what a member of class number `class` resolves to.
#[tactic(auto, using(java_exprs::proofs::RulesLemmas::joins))]
fn add_member(
    alloc: Global,
    env: &Environment,
    class: u32,
    member: &Member,
    bodies: &mut Bodies,
) -> Result<(), CheckError>
    ensures bodies { OnOk result (bodies.new ≡ gathered.with_member env.now class member.now bodies.old) }
    ensures clear { OnOk result (spec.member_faults env.now class member.now ≡ []) }
    ensures fault { IfErr result (Refuses (answer.faults_in env.now class member.now)) }
{
    match member {
        Member::Field(tree) => check_field(alloc, env, class, tree),
        Member::Method(tree) => {
            let method = method(alloc, env, class, tree)?;
            Ok(bodies.methods.push(method)?)
        }
        Member::Maker(tree) => {
            let maker = maker(alloc, env, class, tree)?;
            Ok(bodies.makers.push(maker)?)
        }
        Member::Empty => Ok(()),
    }
}

// Adds what the members of class number `class` resolve to.
#[tactic(auto, using(java_exprs::proofs::RulesLemmas::joins))]
fn add_members(
    alloc: Global,
    env: &Environment,
    class: u32,
    members: &[Member],
    bodies: &mut Bodies,
) -> Result<(), CheckError>
    ensures bodies { OnOk result (bodies.new ≡ gathered.with_members env.now class members.now bodies.old) }
    ensures clear { OnOk result (flat_map (spec.member_faults env.now class) members.now ≡ []) }
    ensures fault { IfErr result (Refuses (flat_map (answer.faults_in env.now class) members.now)) }
{
    for member in members {
        add_member(alloc, env, class, member, bodies)?;
    }
    Ok(())
}

/// The methods and the constructors that the classes of a file declare, in text order. Field initialisers are checked,
/// and not kept.
///
/// # Errors
/// `Fault` of a rule that a member breaks, at the token where it does. `OutOfMemory` where memory runs out.
#[tactic(auto, using(java_exprs::proofs::RulesLemmas::joins), unfolding(crate::specs::Files::of_members))]
pub fn resolve_members(
    alloc: Global,
    env: &Environment,
    classes: &[ClassTree],
) -> Result<Bodies, CheckError>
    ensures methods { IfOk result (λ bodies. bodies.methods ≡ spec.of_members (spec.own_method env.now) first_class classes.now) }
    ensures makers { IfOk result (λ bodies. bodies.makers ≡ spec.of_members (spec.own_maker env.now) first_class classes.now) }
    ensures clear { OnOk result (spec.of_members (spec.member_faults env.now) first_class classes.now ≡ []) }
    ensures fault { IfErr result (Refuses (spec.of_members (answer.faults_in env.now) first_class classes.now)) }
{
    let mut bodies = Bodies {
        methods: Items::new(alloc),
        makers: Items::new(alloc),
    };
    let mut class = FIRST_CLASS;
    for tree in classes {
        add_members(alloc, env, class, tree.members.as_slice(), &mut bodies)?;
        class = following(class)?;
    }
    Ok(bodies)
}

// Whether a constructor is among these members.
fn has_maker(members: &[Member]) -> bool
    ensures { result ≡ list_any answer.is_constructor members.now }
{
    members
        .iter()
        .any(|member| matches!(member, Member::Maker(_)))
}

// Adds the constructor that is made for class number `class`, where it declares none.
#[tactic(auto, using(crate::proofs::FileLemmas::made))]
fn add_made_maker(
    alloc: Global,
    env: &Environment,
    class: u32,
    tree: &ClassTree,
    makers: &mut Items<Maker>,
) -> Result<(), CheckError>
    ensures makers { OnOk result (makers.new ≡ makers.old ++ spec.where_none (flat_map spec.is_maker tree.now.members) (body.made_maker env.now class ∷ [])) }
    ensures fault { Allows (spec.where_none (flat_map spec.is_maker tree.now.members) (spec.made_faults env.now class tree.now)) result }
{
    if !has_maker(tree.members.as_slice()) {
        let maker = made_maker(alloc, env, class, tree.name.at)?;
        makers.push(maker)?;
    }
    Ok(())
}

/// Adds the constructors that are made for the classes of a file that declare none, in the order of the classes
/// (JLS 8.8.9).
///
/// # Errors
/// `Fault` of rule 12 or 13 at the class's name, where the superclass has no constructor without parameters, or that
/// one is private. `OutOfMemory` where memory runs out.
#[tactic(auto, using(java_exprs::proofs::RulesLemmas::joins), unfolding(crate::specs::Files::of_made))]
pub fn add_made_makers(
    alloc: Global,
    env: &Environment,
    classes: &[ClassTree],
    makers: &mut Items<Maker>,
) -> Result<(), CheckError>
    ensures makers { OnOk result (makers.new ≡ makers.old ++ spec.of_made (λ c k. body.made_maker env.now c ∷ []) first_class classes.now) }
    ensures fault { Allows (spec.of_made (spec.made_faults env.now) first_class classes.now) result }
{
    let mut class = FIRST_CLASS;
    for tree in classes {
        add_made_maker(alloc, env, class, tree, makers)?;
        class = following(class)?;
    }
    Ok(())
}
