//! The instance fields that each class declares itself.

ghost use Rattle.std.specs.Prelude.{◌≡◌, ◌∷◌, ◌++◌, [], IfErr, IfOk, OnOk, flat_map, map};
ghost use Rattle.core_tree.specs.BuiltIn.{first_class, message_field};
ghost use Rattle.java_names.specs.Refusals.{Refuses};
ghost use Rattle.java_members.specs.Files as spec;

use crate::fields::field;
use core_tree::{BuiltIn, FIRST_CLASS, Field, Ty};
use java_exprs::Environment;
use java_exprs::literals::text_of;
use java_names::{following, is_static};
use java_syntax::{CheckError, ClassTree, FileTree, Member};
use sqlite_items::Items;
use std::alloc::Global;

// The message of a Throwable, which no source can name.
fn message_field(alloc: Global) -> Result<Field, CheckError>
    ensures field { IfOk result (λ f. f ≡ message_field) }
    ensures memory { IfErr result (λ e. e ≡ CheckError.OutOfMemory) }
{
    let name = ['#', 'm', 'e', 's', 's', 'a', 'g', 'e'];
    Ok(Field {
        name: text_of(alloc, &name)?,
        ty: Ty::Text,
        start: None,
        owner: BuiltIn::Throwable.number(),
    })
}

// The fields that a built-in class declares itself.
fn built_in_own(alloc: Global, class: BuiltIn) -> Result<Items<Field>, CheckError>
    ensures fields { IfOk result (λ fields. fields ≡ spec.built_in_own class) }
    ensures memory { IfErr result (λ e. e ≡ CheckError.OutOfMemory) }
{
    let mut fields = Items::new(alloc);
    match class {
        BuiltIn::Throwable => fields.push(message_field(alloc)?)?,
        _ => {}
    }
    Ok(fields)
}

// The fields that each of some built-in classes declares itself.
fn built_in_fields(alloc: Global, classes: &[BuiltIn]) -> Result<Items<Items<Field>>, CheckError>
    ensures fields { IfOk result (λ all. all ≡ map spec.built_in_own classes.now) }
    ensures memory { IfErr result (λ e. e ≡ CheckError.OutOfMemory) }
{
    let mut all = Items::new(alloc);
    for class in classes {
        all.push(built_in_own(alloc, *class)?)?;
    }
    Ok(all)
}

// Adds the field that a member of class number `class` is.
fn add_member(
    alloc: Global,
    env: &Environment,
    class: u32,
    member: &Member,
    fields: &mut Items<Field>,
) -> Result<(), CheckError>
    ensures fields { OnOk result (fields.new ≡ fields.old ++ spec.own_field env.now class member.now) }
    ensures fault { IfErr result (Refuses (spec.member_faults env.now class member.now)) }
{
    if let Member::Field(tree) = member {
        if !is_static(&tree.mods) {
            let field = field(alloc, env, class, tree)?;
            fields.push(field)?;
        }
    }
    Ok(())
}

// The fields that the members of class number `class` are.
fn fields_in(
    alloc: Global,
    env: &Environment,
    class: u32,
    members: &[Member],
) -> Result<Items<Field>, CheckError>
    ensures fields { IfOk result (λ fields. fields ≡ flat_map (spec.own_field env.now class) members.now) }
    ensures fault { IfErr result (Refuses (flat_map (spec.member_faults env.now class) members.now)) }
{
    let mut fields = Items::new(alloc);
    for member in members {
        add_member(alloc, env, class, member, &mut fields)?;
    }
    Ok(fields)
}

// Adds the fields that each of these classes declares itself; the first of them is the first of the file.
#[tactic(auto, unfolding(crate::specs::Files::own_fields))]
fn add_file_fields(
    alloc: Global,
    env: &Environment,
    classes: &[ClassTree],
    all: &mut Items<Items<Field>>,
) -> Result<(), CheckError>
    ensures fields { OnOk result (all.new ≡ all.old ++ spec.own_fields env.now first_class classes.now) }
    ensures fault { IfErr result (Refuses (spec.of_members (spec.member_faults env.now) first_class classes.now)) }
{
    let mut class = FIRST_CLASS;
    for tree in classes {
        let fields = fields_in(alloc, env, class, tree.members.as_slice())?;
        all.push(fields)?;
        class = following(class)?;
    }
    Ok(())
}

/// The instance fields that each class declares itself, by the classes' numbers: of the built-in ones Throwable alone
/// has one, the message.
///
/// # Errors
/// `Fault` of a rule that an initialiser breaks, at the token where it does. `OutOfMemory` where memory runs out.
pub fn own_fields(
    alloc: Global,
    env: &Environment,
    tree: &FileTree,
) -> Result<Items<Items<Field>>, CheckError>
    ensures fields { IfOk result (λ all. all ≡ spec.all_own_fields env.now tree.now) }
    ensures fault { IfErr result (Refuses (spec.of_members (spec.member_faults env.now) first_class tree.now.classes)) }
{
    let mut all = built_in_fields(alloc, &BuiltIn::ALL)?;
    add_file_fields(alloc, env, tree.classes.as_slice(), &mut all)?;
    Ok(all)
}
