//! Constructors (JLS 8.8).

ghost use Rattle.std.specs.Prelude.{◌≡◌, ◌++◌, [], IfErr, IfOk, OnOk, map};
ghost use Rattle.java_syntax.specs.declared.class.Member.TheVariants as member;
ghost use Rattle.java_exprs.specs.Attr.{values_faults};
ghost use Rattle.java_names.specs.Refusals.{Refuses};
ghost use Rattle.java_exprs.specs.Checks.{attr};
ghost use Rattle.java_members.specs.Bodies as spec;
ghost use Rattle.java_members.specs.Answers.{faults_in};

use crate::parameters::declare_params;
use crate::slots::other_locals;
use crate::superclass::parent;
use crate::types::param_types;
use core_tree::{Maker, Parent};
use java_exprs::Environment;
use java_exprs::expression::values;
use java_names::{Scope, beginning_of, maker_scope};
use java_statements::statements::body;
use java_syntax::{CheckError, Expr, MakerTree};
use sqlite_items::Items;
use std::alloc::Global;

// The call of the superclass's constructor, at token number `at` with these arguments.
#[tactic(auto, using(java_exprs::proofs::RulesLemmas::joins, java_exprs::proofs::RulesLemmas::no_faults))]
fn call_parent(
    alloc: Global,
    env: &Environment,
    class: u32,
    scope: &Scope,
    at: u32,
    given: &[Expr],
) -> Result<Parent, CheckError>
    ensures parent { IfOk result (λ p. p ≡ spec.core_parent env.now class (map (attr env.now scope.now) given.now)) }
    ensures clear { OnOk result (values_faults (map (attr env.now scope.now) given.now) ++ spec.parent_faults env.now class at (map (attr env.now scope.now) given.now) ≡ []) }
    ensures fault { IfErr result (Refuses (values_faults (map (attr env.now scope.now) given.now) ++ spec.parent_faults env.now class at (map (attr env.now scope.now) given.now))) }
{
    let given = values(alloc, env, scope, given)?;
    parent(alloc, env, class, at, given)
}

/// A constructor of class number `class`, with its body, checked and resolved.
///
/// # Errors
/// `Fault` of a rule that its parameters, its call of the superclass's constructor or its body break, at the token
/// where they do. `OutOfMemory` where memory runs out.
pub fn maker(
    alloc: Global,
    env: &Environment,
    class: u32,
    tree: &MakerTree,
) -> Result<Maker, CheckError>
    ensures maker { IfOk result (λ m. m ≡ spec.core_maker env.now class tree.now) }
    ensures clear { OnOk result (spec.maker_faults env.now class tree.now ≡ []) }
    ensures fault { IfErr result (Refuses (faults_in env.now class (member.Maker tree.now))) }
{
    let params = param_types(alloc, env, tree.params.as_slice())?;
    let mut scope = maker_scope(alloc, class)?;
    declare_params(alloc, env, tree.params.as_slice(), &mut scope)?;
    let beginning = beginning_of(tree.name.at, tree.body.as_slice());
    let parent = call_parent(alloc, env, class, &scope, beginning.at, beginning.given)?;
    let steps = body(alloc, env, &mut scope, beginning.rest)?;
    let locals = other_locals(alloc, &scope, tree.params.len())?;
    Ok(Maker {
        owner: class,
        params,
        parent,
        locals,
        body: steps,
    })
}

/// The constructor that is made for class number `class`, which declares none and whose name is token number `at`: it
/// calls the superclass's constructor without parameters (JLS 8.8.9).
///
/// # Errors
/// `Fault` of rule 12 or 13 at the name, where the superclass has no such constructor or that one is private.
/// `OutOfMemory` where memory runs out.
pub fn made_maker(
    alloc: Global,
    env: &Environment,
    class: u32,
    at: u32,
) -> Result<Maker, CheckError>
    ensures maker { IfOk result (λ m. m ≡ spec.made_maker env.now class) }
    ensures clear { OnOk result (spec.parent_faults env.now class at [] ≡ []) }
    ensures fault { IfErr result (Refuses (spec.parent_faults env.now class at [])) }
{
    Ok(Maker {
        owner: class,
        params: Items::new(alloc),
        parent: parent(alloc, env, class, at, Items::new(alloc))?,
        locals: Items::new(alloc),
        body: Items::new(alloc),
    })
}
