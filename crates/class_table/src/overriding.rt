//! The rule on overriding.

ghost use Rattle.std.specs.Prelude.{◌≡◌, ◌&&◌, ◌<◌, ◌^◌, true, false, length, position, IfOk, IfErr, OnOk, option_and_then};
ghost use Rattle.std.specs.List.{list_any, list_all, slice_get};
ghost use Rattle.std.specs.Option.{option_copied, option_map_or};
ghost use Rattle.class_table.specs.Ancestors as ancestors;
ghost use Rattle.class_table.specs.Faults.{Blames, Clear, InSome, OfRule};
ghost use Rattle.class_table.specs.Index.{IsIndex, same_signature, signature_of};
ghost use Rattle.class_table.specs.Members as member;
ghost use Rattle.class_table.specs.Ancestors.{superclasses};
ghost use Rattle.class_table.specs.Nearest.{NearestWrong, first_called};
ghost use Rattle.class_table.specs.Nearest as spec;
ghost use Rattle.class_table.specs.Rules.{OverridesWrongly};
ghost use Rattle.class_table.specs.Rules as rule;

use crate::declaration::Declaration;
use crate::fields::{above, is_private, is_static};
use crate::index::Index;
use crate::methods::signature;
use crate::names::fault;
use crate::row::{MethodRow, Signature};
use core_tree::BuiltIn;
use java_syntax::{BaseType, CheckError, TypeTree};
use java_tokens::Name;
use sqlite_items::{Items, at};

/// Whether two base types are spelled alike.
fn same_base(a: &BaseType, b: &BaseType) -> bool
    ensures { result ≡ member.same_base a.now b.now }
{
    match (a, b) {
        (BaseType::Int, BaseType::Int) => true,
        (BaseType::Boolean, BaseType::Boolean) => true,
        (BaseType::Class(a), BaseType::Class(b)) => a.name == b.name,
        _ => false,
    }
}

/// Whether two types are spelled alike.
fn same_type(a: &TypeTree, b: &TypeTree) -> bool
    ensures { result ≡ member.same_type a.now b.now }
{
    same_base(&a.base, &b.base) && a.dimensions == b.dimensions
}

/// Whether two lists of types are spelled alike.
fn same_types(mut a: &[TypeTree], mut b: &[TypeTree]) -> bool
    ensures { result ≡ member.same_types a.entry.now b.entry.now }
{
    while let [first, more @ ..] = a {
        let [second, rest @ ..] = b else {
            return false;
        };
        if !same_type(first, second) {
            return false;
        }
        a = more;
        b = rest;
    }
    b.is_empty()
}

/// Whether two result types are spelled alike.
fn same_answer(a: &Option<TypeTree>, b: &Option<TypeTree>) -> bool
    ensures { result ≡ member.same_answer a.now b.now }
{
    match (a, b) {
        (None, None) => true,
        (Some(a), Some(b)) => same_type(a, b),
        _ => false,
    }
}

/// Whether class `class` is class `other` or below it.
#[tactic(auto, using(crate::proofs::IndexLemmas::line_of_index))]
fn is_below(index: &Index, class: u32, other: u32) -> bool
    requires { IsIndex index.now }
    ensures { result ≡ ancestors.is_below index.now.declared class other }
{
    match at(index.lines.as_slice(), class as usize) {
        Some(line) => line.as_slice().contains(&other),
        None => false,
    }
}

/// Whether a class is checked (JLS 11.1.1): `Throwable` or below it, and not `RuntimeException`, `Error` or below
/// these.
fn is_checked(index: &Index, class: u32) -> bool
    requires { IsIndex index.now }
    ensures { result ≡ rule.is_checked index.now.declared class }
{
    is_below(index, class, BuiltIn::Throwable.number())
        && !is_below(index, class, BuiltIn::RuntimeException.number())
        && !is_below(index, class, BuiltIn::Error.number())
}

/// The number of the checked class of that name.
fn checked_number(index: &Index, name: &Name) -> Option<u32>
    requires index { IsIndex index.now }
    requires few { length index.now.names < 2 ^ 32 }
    ensures { result ≡ rule.checked_number index.now.names index.now.declared name.now }
{
    let class = index.names.number(name)? as u32;
    if is_checked(index, class) {
        Some(class)
    } else {
        None
    }
}

/// Whether class `class` is below the checked class of that name.
fn is_below_named(index: &Index, class: u32, name: &Name) -> bool
    requires index { IsIndex index.now }
    requires few { length index.now.names < 2 ^ 32 }
    ensures { result ≡ option_map_or (ancestors.is_below index.now.declared class) (rule.checked_number index.now.names index.now.declared name.now) false }
{
    match checked_number(index, name) {
        Some(other) => is_below(index, class, other),
        None => false,
    }
}

/// Whether class `class` is below a checked class of one of those names.
fn is_below_any(index: &Index, class: u32, names: &[Name]) -> bool
    requires index { IsIndex index.now }
    requires few { length index.now.names < 2 ^ 32 }
    ensures { result ≡ list_any (λ other. option_map_or (ancestors.is_below index.now.declared class) (rule.checked_number index.now.names index.now.declared other) false) names.now }
{
    names.iter().any(|name| is_below_named(index, class, name))
}

/// Whether what a `throws` names is allowed by another `throws`.
fn is_allowed(index: &Index, allowed: &[Name], name: &Name) -> bool
    requires index { IsIndex index.now }
    requires few { length index.now.names < 2 ^ 32 }
    ensures { result ≡ rule.is_allowed index.now.names index.now.declared allowed.now name.now }
{
    match checked_number(index, name) {
        Some(class) => is_below_any(index, class, allowed),
        None => true,
    }
}

/// Whether all that a `throws` names is allowed by another `throws`.
fn all_allowed(index: &Index, allowed: &[Name], thrown: &[Name]) -> bool
    requires index { IsIndex index.now }
    requires few { length index.now.names < 2 ^ 32 }
    ensures { result ≡ list_all (rule.is_allowed index.now.names index.now.declared allowed.now) thrown.now }
{
    thrown.iter().all(|name| is_allowed(index, allowed, name))
}

/// Whether `method` may override `other`.
fn may_override(index: &Index, method: &MethodRow, other: &MethodRow) -> bool
    requires index { IsIndex index.now }
    requires few { length index.now.names < 2 ^ 32 }
    ensures { result ≡ rule.may_override index.now.names index.now.declared method.now other.now }
{
    !is_private(&other.mods)
        && same_types(method.params.as_slice(), other.params.as_slice())
        && same_answer(&method.answer, &other.answer)
        && is_static(&method.mods) == is_static(&other.mods)
        && !is_private(&method.mods)
        && all_allowed(index, other.throws.as_slice(), method.throws.as_slice())
}

/// The place of the method with that signature among those that a class declares.
fn place_of(index: &Index, class: u32, key: &Signature) -> Option<usize>
    ensures { result ≡ option_and_then (position (same_signature key.now)) (slice_get index.now.methods class) }
{
    match at(index.methods.as_slice(), class as usize) {
        Some(keys) => keys.number(key),
        None => None,
    }
}

/// A method of a class by its place.
fn method_in(index: &Index, class: u32, place: usize) -> Option<&MethodRow>
    ensures { option_copied result ≡ option_and_then (λ d. slice_get d.methods place) (slice_get index.now.declared class) }
{
    match at(index.declared.as_slice(), class as usize) {
        Some(declaration) => at(declaration.methods.get().as_slice(), place),
        None => None,
    }
}

/// The method that a class declares with that signature.
#[tactic(auto, using(crate::proofs::IndexLemmas::called_at, crate::proofs::IndexLemmas::called_nowhere))]
fn method_at<'a>(index: &'a Index, class: u32, key: &Signature) -> Option<&'a MethodRow>
    requires { IsIndex index.now }
    ensures { option_copied result ≡ rule.method_called index.now.declared key.now class }
{
    match place_of(index, class, key) {
        Some(place) => method_in(index, class, place),
        None => None,
    }
}

/// The method that the first of some classes that has one declares with that signature.
fn first_at<'a>(index: &'a Index, mut classes: &[u32], key: &Signature) -> Option<&'a MethodRow>
    requires { IsIndex index.now }
    ensures { option_copied result ≡ first_called index.now.declared key.now classes.entry.now }
{
    while let [class, more @ ..] = classes {
        if let Some(found) = method_at(index, *class, key) {
            return Some(found);
        }
        classes = more;
    }
    None
}

/// The nearest method above a class with that signature.
#[tactic(auto, using(crate::proofs::IndexLemmas::superclasses_at))]
fn nearest<'a>(index: &'a Index, class: usize, key: &Signature) -> Option<&'a MethodRow>
    requires { IsIndex index.now }
    ensures { option_copied result ≡ first_called index.now.declared key.now (superclasses index.now.declared class) }
{
    first_at(index, above(index.lines.as_slice(), class), key)
}

/// Whether a method of a class may override the nearest method above.
fn fits_nearest(index: &Index, class: usize, method: &MethodRow, key: &Signature) -> bool
    requires index { IsIndex index.now }
    requires few { length index.now.names < 2 ^ 32 }
    requires key { key.now ≡ signature_of method.now }
    ensures { result ≡ spec.fits_nearest index.now.names index.now.declared class method.now }
{
    match nearest(index, class, key) {
        Some(other) => may_override(index, method, other),
        None => true,
    }
}

/// Checks that a method of a class may override the nearest method above.
fn check_method(index: &Index, class: usize, method: &MethodRow) -> Result<(), CheckError>
    requires index { IsIndex index.now }
    requires few { length index.now.names < 2 ^ 32 }
    ensures fault { IfErr result (Blames (OfRule 6 (NearestWrong index.now.names index.now.declared class method.now))) }
    ensures clear { OnOk result (Clear (OfRule 6 (NearestWrong index.now.names index.now.declared class method.now))) }
{
    let key = signature(method)?;
    if fits_nearest(index, class, method, &key) {
        Ok(())
    } else {
        Err(fault(6, method.at))
    }
}

/// Checks that each method of a class may override the nearest method above.
#[tactic(auto, using(crate::proofs::Faults::loops))]
fn check_class(index: &Index, class: usize, methods: &[MethodRow]) -> Result<(), CheckError>
    requires index { IsIndex index.now }
    requires few { length index.now.names < 2 ^ 32 }
    ensures fault { IfErr result (Blames (InSome methods.now (λ place m. OfRule 6 (NearestWrong index.now.names index.now.declared class m)))) }
    ensures clear { OnOk result (Clear (InSome methods.now (λ place m. OfRule 6 (NearestWrong index.now.names index.now.declared class m)))) }
{
    for method in methods {
        check_method(index, class, method)?;
    }
    Ok(())
}

/// Checks that each method of each class may override the nearest method above.
#[tactic(auto, using(crate::proofs::Faults::loops))]
fn check_nearest(index: &Index, declared: &[Declaration]) -> Result<(), CheckError>
    requires index { IsIndex index.now }
    requires few { length index.now.names < 2 ^ 32 }
    ensures fault { IfErr result (Blames (InSome declared.now (λ number d. InSome d.methods (λ place m. OfRule 6 (NearestWrong index.now.names index.now.declared number m))))) }
    ensures clear { OnOk result (Clear (InSome declared.now (λ number d. InSome d.methods (λ place m. OfRule 6 (NearestWrong index.now.names index.now.declared number m))))) }
{
    let mut number = 0usize;
    for class in declared {
        check_class(index, number, class.methods.get().as_slice())?;
        number += 1;
    }
    Ok(())
}

/// Checks that each method may override those of all superclasses of its class. A method above has itself been compared
/// with those above it, so the nearest is enough.
pub fn check_overriding(index: &Index, declared: &[Declaration]) -> Result<(), CheckError>
    requires index { IsIndex index.now }
    requires few { length index.now.names < 2 ^ 32 }
    requires same { declared.now ≡ index.now.declared }
    requires ends { ancestors.AllEnd (ancestors.parents_of index.now.declared) }
    ensures fault { IfErr result (Blames (InSome declared.now (λ number d. InSome d.methods (λ place m. OfRule 6 (OverridesWrongly index.now.names index.now.declared number m))))) }
    ensures clear { OnOk result (Clear (InSome declared.now (λ number d. InSome d.methods (λ place m. OfRule 6 (OverridesWrongly index.now.names index.now.declared number m))))) }
{
    check_nearest(index, declared)
}
