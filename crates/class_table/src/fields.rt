//! The rules on fields.

ghost use Rattle.std.specs.Prelude.{◌≡◌, ◌<◌, ◌≤◌, length, map, filter, false, drop, [], IfOk, IfErr, OnOk, List, ℕ};
ghost use Rattle.std.specs.List.{list_any, slice_get};
ghost use Rattle.std.specs.Option.{option_map_or};
ghost use Rattle.class_table.specs.Names.{same_name};
ghost use Rattle.class_table.specs.Ancestors.{line_at, superclasses};
ghost use Rattle.class_table.specs.Members as member;
ghost use Rattle.class_table.specs.Faults.{Blames, Clear, InSome, OfRule};
ghost use Rattle.class_table.specs.Fields.{fields_at};
ghost use Rattle.class_table.specs.Index.{IsIndex, field_names, field_names_of};
ghost use Rattle.class_table.specs.Lines.{lines_of};
ghost use Rattle.class_table.specs.Rules.{FieldAgain, FieldHidden, is_inherited, same_field};

use crate::declaration::Declaration;
use crate::index::Index;
use crate::keys::Keys;
use crate::names::{add_name, fault};
use crate::row::FieldRow;
use java_syntax::{CheckError, Modifier, Mods};
use java_tokens::Name;
use sqlite_items::{Items, at};
use std::alloc::Global;

/// Whether a member is static.
pub fn is_static(mods: &Mods) -> bool
    ensures { result ≡ member.is_static mods.now }
{
    mods.words
        .as_slice()
        .iter()
        .any(|word| matches!(word, Modifier::Static))
}

/// Whether a member is private.
pub fn is_private(mods: &Mods) -> bool
    ensures { result ≡ member.is_private mods.now }
{
    mods.words
        .as_slice()
        .iter()
        .any(|word| matches!(word, Modifier::Private))
}

/// The names of the fields of a class, which are all different.
fn names_of_fields(alloc: Global, fields: &[FieldRow]) -> Result<Keys<Name>, CheckError>
    ensures keys { IfOk result (λ keys. keys ≡ field_names fields.now) }
    ensures fault { IfErr result (Blames (InSome fields.now (λ place f. OfRule 4 (FieldAgain fields.now place f)))) }
    ensures clear { OnOk result (Clear (InSome fields.now (λ place f. OfRule 4 (FieldAgain fields.now place f)))) }
{
    let mut keys = Keys::new(alloc);
    for field in fields {
        add_name(&mut keys, &field.name, 4, field.at)?;
    }
    Ok(keys)
}

/// The names of the fields of each class, which are all different in a class.
pub fn names_by_class(
    alloc: Global,
    declared: &[Declaration],
) -> Result<Items<Keys<Name>>, CheckError>
    ensures keys { IfOk result (λ keys. keys ≡ field_names_of declared.now) }
    ensures fault { IfErr result (Blames (InSome declared.now (λ number d. InSome d.fields (λ place f. OfRule 4 (FieldAgain d.fields place f))))) }
    ensures clear { OnOk result (Clear (InSome declared.now (λ number d. InSome d.fields (λ place f. OfRule 4 (FieldAgain d.fields place f))))) }
{
    let mut keys = Items::new(alloc);
    for class in declared {
        keys.push(names_of_fields(alloc, class.fields.as_slice())?)?;
    }
    Ok(keys)
}

/// The superclasses of a class: its line without itself.
pub fn above(lines: &[Items<u32>], class: usize) -> &[u32]
    ensures { result.now ≡ drop 1 (option_map_or (λ line. line) (slice_get lines.now class) []) }
{
    match at(lines, class) {
        Some(line) => match line.as_slice() {
            [_, above @ ..] => above,
            [] => &[],
        },
        None => &[],
    }
}

/// Whether a class declares a field of that name.
#[tactic(auto, using(crate::proofs::IndexLemmas::field_names_at))]
fn declares(index: &Index, class: u32, field: &FieldRow) -> bool
    requires { IsIndex index.now }
    ensures { result ≡ list_any (same_field field.now) (fields_at index.now.declared class) }
{
    match at(index.fields.as_slice(), class as usize) {
        Some(names) => names.contains(&field.name),
        None => false,
    }
}

/// Whether one of some classes declares a field of that name.
fn any_declares(index: &Index, classes: &[u32], field: &FieldRow) -> bool
    requires { IsIndex index.now }
    ensures { result ≡ list_any (λ class. list_any (same_field field.now) (fields_at index.now.declared class)) classes.now }
{
    classes.iter().any(|class| declares(index, *class, field))
}

/// Whether a superclass of a class declares a field of that name.
#[tactic(auto, using(crate::proofs::IndexLemmas::superclasses_at))]
fn is_hidden(index: &Index, class: usize, field: &FieldRow) -> bool
    requires { IsIndex index.now }
    ensures { result ≡ is_inherited index.now.declared class field.now }
{
    any_declares(index, above(index.lines.as_slice(), class), field)
}

/// Checks that no superclass declares a field of the name of this one.
fn check_field(index: &Index, class: usize, field: &FieldRow) -> Result<(), CheckError>
    requires { IsIndex index.now }
    ensures fault { IfErr result (Blames (OfRule 4 (FieldHidden index.now.declared class field.now))) }
    ensures clear { OnOk result (Clear (OfRule 4 (FieldHidden index.now.declared class field.now))) }
{
    if is_hidden(index, class, field) {
        return Err(fault(4, field.at));
    }
    Ok(())
}

/// Checks that no superclass declares a field of the name of one of these.
#[tactic(auto, using(crate::proofs::Faults::loops))]
fn check_class(index: &Index, class: usize, fields: &[FieldRow]) -> Result<(), CheckError>
    requires { IsIndex index.now }
    ensures fault { IfErr result (Blames (InSome fields.now (λ place f. OfRule 4 (FieldHidden index.now.declared class f)))) }
    ensures clear { OnOk result (Clear (InSome fields.now (λ place f. OfRule 4 (FieldHidden index.now.declared class f)))) }
{
    for field in fields {
        check_field(index, class, field)?;
    }
    Ok(())
}

/// Checks that no class declares a field of the name of a superclass's.
#[tactic(auto, using(crate::proofs::Faults::loops))]
pub fn check_hidden(index: &Index, declared: &[Declaration]) -> Result<(), CheckError>
    requires { IsIndex index.now }
    ensures fault { IfErr result (Blames (InSome declared.now (λ number d. InSome d.fields (λ place f. OfRule 4 (FieldHidden index.now.declared number f))))) }
    ensures clear { OnOk result (Clear (InSome declared.now (λ number d. InSome d.fields (λ place f. OfRule 4 (FieldHidden index.now.declared number f))))) }
{
    let mut number = 0usize;
    for class in declared {
        check_class(index, number, class.fields.as_slice())?;
        number += 1;
    }
    Ok(())
}
