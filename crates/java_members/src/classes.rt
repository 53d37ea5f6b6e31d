//! The classes of the resolved program, with the fields that they declare and inherit.

ghost use Rattle.std.specs.Prelude.{◌≡◌, ◌++◌, [], IfErr, IfOk, OnOk, reverse, slice_get, unwrap_or};
ghost use Rattle.core_tree.specs.BuiltIn.{first_class};
ghost use Rattle.java_names.specs.Refusals.{Refuses};
ghost use Rattle.java_members.specs.Files as spec;

use crate::own_fields::own_fields;
use class_table::ClassRow;
use core_tree::{Class, Field};
use java_exprs::Environment;
use java_exprs::literals::text_of;
use java_names::{Symbols, following};
use java_syntax::{CheckError, FileTree};
use sqlite_items::{Items, at};
use std::alloc::{AllocError, Global};

// The field, as a class inherits it.
fn inherited(alloc: Global, field: &Field) -> Result<Field, CheckError>
    ensures field { IfOk result (λ copy. copy ≡ field.now) }
    ensures memory { IfErr result (λ e. e ≡ CheckError.OutOfMemory) }
{
    match field.share(alloc) {
        Ok(copy) => Ok(copy),
        Err(_) => Err(CheckError::OutOfMemory),
    }
}

// Adds these fields.
fn add_fields(alloc: Global, own: &[Field], fields: &mut Items<Field>) -> Result<(), CheckError>
    ensures fields { OnOk result (fields.new ≡ fields.old ++ own.now) }
    ensures memory { IfErr result (λ e. e ≡ CheckError.OutOfMemory) }
{
    for field in own {
        fields.push(inherited(alloc, field)?)?;
    }
    Ok(())
}

// Adds the fields that class number `class` declares itself.
fn add_declared(
    alloc: Global,
    declared: &[Items<Field>],
    class: u32,
    fields: &mut Items<Field>,
) -> Result<(), CheckError>
    ensures fields { OnOk result (fields.new ≡ fields.old ++ unwrap_or (slice_get declared.now class) []) }
    ensures memory { IfErr result (λ e. e ≡ CheckError.OutOfMemory) }
{
    match at(declared, class as usize) {
        Some(own) => add_fields(alloc, own.as_slice(), fields),
        None => Ok(()),
    }
}

// The line of a class, the highest class first.
fn highest_first(alloc: Global, line: &[u32]) -> Result<Items<u32>, AllocError>
    ensures { IfOk result (λ classes. classes ≡ reverse line.now) }
{
    Ok(Items::from_vec(line.iter().rev().copied().collect(alloc)?))
}

// The instance fields of class number `class`, those of the highest class of its line first. Their initialisers are
// shared with the classes that declare them.
fn fields_of(
    alloc: Global,
    symbols: &Symbols,
    declared: &[Items<Field>],
    class: u32,
) -> Result<Items<Field>, CheckError>
    ensures fields { IfOk result (λ fields. fields ≡ spec.fields_along declared.now symbols.now class) }
    ensures memory { IfErr result (λ e. e ≡ CheckError.OutOfMemory) }
{
    let line = highest_first(alloc, symbols.line(class))?;
    let mut fields = Items::new(alloc);
    for above in line.as_slice() {
        add_declared(alloc, declared, *above, &mut fields)?;
    }
    Ok(fields)
}

// Class number `class`, whose row this is.
fn class(
    alloc: Global,
    symbols: &Symbols,
    declared: &[Items<Field>],
    class: u32,
    row: &ClassRow,
) -> Result<Class, CheckError>
    ensures class { IfOk result (λ k. k ≡ spec.class_with declared.now symbols.now class row.now) }
    ensures memory { IfErr result (λ e. e ≡ CheckError.OutOfMemory) }
{
    let name = text_of(alloc, row.name.characters())?;
    let chosen = symbols.chosen(alloc, class)?;
    let fields = fields_of(alloc, symbols, declared, class)?;
    Ok(Class {
        name,
        parent: row.parent,
        fields,
        chosen,
    })
}

/// The classes of the program, by the rows of its table: the built-in ones, then those of the file. Each initialiser is
/// resolved once, and shared by the classes that inherit its field.
///
/// # Errors
/// `Fault` of a rule that a field's initialiser breaks, at the token where it does. `OutOfMemory` where there is no
/// memory left.
#[tactic(auto, unfolding(crate::specs::Files::core_classes))]
pub fn classes(
    alloc: Global,
    env: &Environment,
    tree: &FileTree,
    rows: &[ClassRow],
) -> Result<Items<Class>, CheckError>
    ensures classes { IfOk result (λ classes. classes ≡ spec.core_classes env.now tree.now 0 rows.now) }
    ensures fault { IfErr result (Refuses (spec.of_members (spec.member_faults env.now) first_class tree.now.classes)) }
{
    let declared = own_fields(alloc, env, tree)?;
    let mut number = 0;
    let mut classes = Items::new(alloc);
    for row in rows {
        let class = class(alloc, &env.symbols, declared.as_slice(), number, row)?;
        classes.push(class)?;
        number = following(number)?;
    }
    Ok(classes)
}
