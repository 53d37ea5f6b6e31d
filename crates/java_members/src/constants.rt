//! The constants of a file, read in text order (JLS 8.3, 15.29).

ghost use Rattle.std.specs.Prelude.{◌≡◌, ◌∷◌, ◌++◌, [], IfErr, IfOk, OnOk};
ghost use Rattle.java_exprs.specs.Attr.{of_rule, unless};
ghost use Rattle.java_names.specs.Refusals.{Allows, Refuses};
ghost use Rattle.java_exprs.specs.Constants.{folded_of, literal_of};
ghost use Rattle.java_members.specs.Answers.{read_in};
ghost use Rattle.java_members.specs.Constants as spec;
ghost use Rattle.java_names.specs.Scope.{constant_scope};
ghost use Rattle.core_tree.specs.BuiltIn.{first_class};

use crate::types::declared_type;
use core_tree::FIRST_CLASS;
use java_constants::fold;
use java_exprs::arguments::fit;
use java_exprs::expression::value;
use java_exprs::fault::fault;
use java_exprs::{Environment, Folded};
use java_names::{constant_scope, following, is_static};
use java_syntax::{CheckError, ClassTree, Expr, FieldTree, Member};
use primitive_operators::Scalar;
use std::alloc::Global;

// The value of a constant whose name is token number `at` and whose initialiser this is; `None` where the initialiser
// has none, since it breaks another rule.
fn literal(folded: Folded, at: u32) -> Result<Option<Scalar>, CheckError>
    ensures value { IfOk result (λ v. v ≡ literal_of folded) }
    ensures clear { OnOk result (of_rule 20 (unless (spec.is_initialiser folded) at) [] ≡ []) }
    ensures fault { IfErr result (Refuses (of_rule 20 (unless (spec.is_initialiser folded) at) [])) }
{
    match folded {
        Folded::Gives(value) => Ok(Some(value)),
        Folded::Unknown => Ok(None),
        Folded::Fails | Folded::Class(_) | Folded::Other => Err(fault(20, at)),
    }
}

// Checks that the initialiser of a constant of class number `class` breaks no rule as an expression, and fits the type.
#[tactic(auto, using(java_exprs::proofs::RulesLemmas::joins))]
fn check_initialiser(
    alloc: Global,
    env: &Environment,
    class: u32,
    field: &FieldTree,
    e: &Expr,
) -> Result<(), CheckError>
    ensures { Allows (spec.constant_faults_of env.now class field.now e.now) result }
{
    let scope = constant_scope(alloc, class)?;
    let want = declared_type(alloc, env, &field.ty)?;
    let value = value(alloc, env, &scope, e)?;
    fit(env, &value, &want)
}

// The value of a constant of class number `class` with this initialiser, and with the constants before it in `env`.
#[tactic(auto, using(java_exprs::proofs::RulesLemmas::joins))]
fn initial_value(
    alloc: Global,
    env: &Environment,
    class: u32,
    field: &FieldTree,
    e: &Expr,
) -> Result<Option<Scalar>, CheckError>
    ensures value { IfOk result (λ v. v ≡ literal_of (folded_of env.now (constant_scope class) e.now)) }
    ensures clear { OnOk result (spec.constant_faults_of env.now class field.now e.now ++ of_rule 20 (unless (spec.is_initialiser (folded_of env.now (constant_scope class) e.now)) field.now.name.at) [] ≡ []) }
    ensures fault { IfErr result (Refuses (spec.constant_faults_of env.now class field.now e.now ++ of_rule 20 (unless (spec.is_initialiser (folded_of env.now (constant_scope class) e.now)) field.now.name.at) [])) }
{
    check_initialiser(alloc, env, class, field, e)?;
    let scope = constant_scope(alloc, class)?;
    literal(fold(alloc, env, &scope, e)?, field.name.at)
}

// The value of a constant of class number `class`, with the constants before it in `env`.
fn constant(
    alloc: Global,
    env: &Environment,
    class: u32,
    field: &FieldTree,
) -> Result<Option<Scalar>, CheckError>
    ensures value { IfOk result (λ v. v ≡ literal_of (spec.initialiser_folded env.now class field.now)) }
    ensures clear { OnOk result (spec.constant_faults env.now class field.now ≡ []) }
    ensures fault { IfErr result (Refuses (spec.constant_faults env.now class field.now)) }
{
    match &field.value {
        Some(e) => initial_value(alloc, env, class, field, e),
        None => Err(fault(20, field.name.at)),
    }
}

// Reads a constant of class number `class`.
fn read_constant(
    alloc: Global,
    env: &mut Environment,
    class: u32,
    field: &FieldTree,
) -> Result<(), CheckError>
    ensures same { OnOk result (env.new ≡ spec.with_constants env.old env.new.constants) }
    ensures read { OnOk result (spec.read_constant env.old class field.now (read_in env.old) ≡ read_in env.new) }
    ensures fault { IfErr result (Refuses (spec.read_constant env.old class field.now (read_in env.old)).faults) }
{
    let value = constant(alloc, env, class, field)?;
    env.constants.push(field.name.at, value)?;
    Ok(())
}

// Reads a member of class number `class`, where it is a constant.
fn read_member(
    alloc: Global,
    env: &mut Environment,
    class: u32,
    member: &Member,
) -> Result<(), CheckError>
    ensures same { OnOk result (env.new ≡ spec.with_constants env.old env.new.constants) }
    ensures read { OnOk result (spec.read_member env.old class member.now (read_in env.old) ≡ read_in env.new) }
    ensures fault { IfErr result (Refuses (spec.read_member env.old class member.now (read_in env.old)).faults) }
{
    if let Member::Field(field) = member {
        if is_static(&field.mods) {
            return read_constant(alloc, env, class, field);
        }
    }
    Ok(())
}

// Reads the constants among the members of class number `class`.
fn read_members(
    alloc: Global,
    env: &mut Environment,
    class: u32,
    members: &[Member],
) -> Result<(), CheckError>
    ensures same { OnOk result (env.new ≡ spec.with_constants env.old env.new.constants) }
    ensures read { OnOk result (spec.read_members env.old class members.now (read_in env.old) ≡ read_in env.new) }
    ensures fault { IfErr result (Refuses (spec.read_members env.old class members.now (read_in env.old)).faults) }
{
    for member in members {
        read_member(alloc, env, class, member)?;
    }
    Ok(())
}

/// Reads the constants of the classes of a file in text order, after those that `env` has.
///
/// # Errors
/// `Fault` of a rule that the initialiser of a constant breaks, at the token where it does; of rule 20 at the
/// constant's name. `OutOfMemory` where memory runs out. After an error `env` has the constants before that one.
pub fn read_constants(
    alloc: Global,
    env: &mut Environment,
    classes: &[ClassTree],
) -> Result<(), CheckError>
    ensures same { OnOk result (env.new ≡ spec.with_constants env.old env.new.constants) }
    ensures read { OnOk result (spec.read_classes env.old first_class classes.now (read_in env.old) ≡ read_in env.new) }
    ensures fault { IfErr result (Refuses (spec.read_classes env.old first_class classes.now (read_in env.old)).faults) }
{
    let mut class = FIRST_CLASS;
    for tree in classes {
        read_members(alloc, env, class, tree.members.as_slice())?;
        class = following(class)?;
    }
    Ok(())
}
