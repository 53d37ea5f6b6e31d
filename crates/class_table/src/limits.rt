//! The limit on instance fields, and the search for `main`.

ghost use Rattle.std.specs.Prelude.{◌≡◌, ◌<◌, ◌≤◌, length, filter, IfOk, IfErr, OnOk, MatchOption};
ghost use Rattle.std.specs.List.{list_any};
ghost use Rattle.class_table.specs.Faults.{Blames, Clear, OfRule};
ghost use Rattle.class_table.specs.Fields.{instance_count, instance_total};
ghost use Rattle.class_table.specs.Index.{IsIndex, counts_of};
ghost use Rattle.class_table.specs.Members as member;
ghost use Rattle.class_table.specs.Rules.{NoMain};
ghost use Rattle.class_table.specs.Rules as rule;

use crate::built_in::name;
use crate::declaration::Declaration;
use crate::fields::is_static;
use crate::index::Index;
use crate::names::fault;
use crate::row::{FieldRow, MethodRow};
use java_syntax::{BaseType, CheckError, TypeTree};
use java_tokens::Name;
use sqlite_items::{Items, at};
use std::alloc::{AllocError, Global};

/// How many instance fields a class may have, inherited ones included.
pub const MAX_FIELDS: usize = 255;

/// Whether a field is one of instances, and not a constant.
pub fn is_instance(field: &FieldRow) -> bool
    ensures { result ≡ member.is_instance field.now }
{
    !is_static(&field.mods)
}

/// How many of some fields are instance fields.
pub fn count(fields: &[FieldRow]) -> usize
    ensures { result ≡ length (filter member.is_instance fields.now) }
{
    fields.iter().filter(|field| is_instance(field)).count()
}

/// How many instance fields each class declares.
pub fn counts(alloc: Global, declared: &[Declaration]) -> Result<Items<usize>, AllocError>
    ensures { IfOk result (λ counts. counts ≡ counts_of declared.now) }
{
    let mut counts = Items::new(alloc);
    for class in declared {
        counts.push(count(class.fields.as_slice()))?;
    }
    Ok(counts)
}

/// How many instance fields a class declares.
#[tactic(auto, using(crate::proofs::IndexLemmas::count_at_index))]
fn count_at(index: &Index, class: u32) -> usize
    requires { IsIndex index.now }
    ensures { result ≡ instance_count index.now.declared class }
{
    match at(index.counts.as_slice(), class as usize) {
        Some(count) => *count,
        None => 0,
    }
}

/// How many instance fields the classes of a line declare, or `None` where they are too many.
pub fn total(index: &Index, line: &[u32]) -> Option<u32>
    requires { IsIndex index.now }
    ensures { MatchOption result (255 < instance_total index.now.declared line.now) (λ total. (total ≡ instance_total index.now.declared line.now) × (total ≤ 255)) }
{
    let mut total = 0usize;
    for class in line {
        total = total.saturating_add(count_at(index, *class));
        if total > MAX_FIELDS {
            return None;
        }
    }
    Some(total as u32)
}

/// Whether a base type is `String`, as it is spelled.
fn is_string(base: &BaseType, string: &Name) -> bool
    requires { string.now ≡ rule.string_name }
    ensures { result ≡ rule.is_string base.now }
{
    match base {
        BaseType::Class(class) => class.name == *string,
        _ => false,
    }
}

/// Whether the one parameter is of type `String[]`, as it is spelled.
fn is_string_array(params: &[TypeTree], string: &Name) -> bool
    requires { string.now ≡ rule.string_name }
    ensures { result ≡ rule.is_string_array params.now }
{
    match params {
        [only] => is_string(&only.base, string) && only.dimensions == 1,
        _ => false,
    }
}

/// Whether a method is `static void main` with one parameter of type `String[]`.
fn is_main(method: &MethodRow, main: &Name, string: &Name) -> bool
    requires main { main.now ≡ rule.main_name }
    requires string { string.now ≡ rule.string_name }
    ensures { result ≡ rule.is_main method.now }
{
    method.name == *main
        && is_static(&method.mods)
        && method.answer.is_none()
        && is_string_array(method.params.as_slice(), string)
}

/// Whether one of some methods is `main`.
fn has_main(methods: &[MethodRow], main: &Name, string: &Name) -> bool
    requires main { main.now ≡ rule.main_name }
    requires string { string.now ≡ rule.string_name }
    ensures { result ≡ list_any rule.is_main methods.now }
{
    methods.iter().any(|method| is_main(method, main, string))
}

/// Whether one of some classes declares `main`.
fn any_main(declared: &[Declaration], main: &Name, string: &Name) -> bool
    requires main { main.now ≡ rule.main_name }
    requires string { string.now ≡ rule.string_name }
    ensures { result ≡ list_any (λ d. list_any rule.is_main d.methods) declared.now }
{
    declared.iter().any(|class| has_main(class.methods.get().as_slice(), main, string))
}

/// Checks that a class declares `static void main` with one parameter of type `String[]`.
pub fn check_main(alloc: Global, declared: &[Declaration]) -> Result<(), CheckError>
    ensures fault { IfErr result (Blames (OfRule 7 (NoMain declared.now))) }
    ensures clear { OnOk result (Clear (OfRule 7 (NoMain declared.now))) }
{
    let main = name(alloc, b"main")?;
    let string = name(alloc, b"String")?;
    if any_main(declared, &main, &string) {
        Ok(())
    } else {
        Err(fault(7, 0))
    }
}
