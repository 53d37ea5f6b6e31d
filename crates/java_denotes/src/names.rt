//! What names denote (JLS 6.4.2, 6.5, 15.11).

ghost use Rattle.std.specs.Prelude.{◌≡◌, IfOk, Some, option_and_then};
ghost use Rattle.std.specs.Option.{option_copied};
ghost use Rattle.java_denotes.specs.Denotes as spec;
ghost use Rattle.java_denotes.specs.Known.{of_known};
ghost use Rattle.java_denotes.specs.Lookups as names;
ghost use Rattle.java_denotes.specs.Members.{found_through};

use crate::denotation::Denotation;
use crate::known::{Known, copy};
use crate::library::{array_field, is_system, library_field};
use crate::through::Through;
use core_tree::Ty;
use core_tree::forms::{class_of, is_void};
use java_names::{FieldSymbol, Scope, Symbols};
use java_syntax::Ident;
use java_tokens::Name;
use sqlite_items::at;
use std::alloc::{AllocError, Global};

/// What a variable of this type denotes: a value of it; `None` for `Void`, the type of a declaration whose type has an
/// unknown name. `AllocError` where memory runs out.
pub fn variable(alloc: Global, ty: &Ty) -> Result<Option<Denotation>, AllocError>
    ensures { IfOk result (λ d. d ≡ names.variable_denotes ty.now) }
{
    if is_void(ty) {
        return Ok(None);
    }
    Ok(Some(Denotation::Value(copy(alloc, ty)?)))
}

/// What the local with this number denotes; `None` where there is none, and where its type has an unknown name.
/// `AllocError` where memory runs out.
pub fn local(alloc: Global, scope: &Scope, number: u32) -> Result<Option<Denotation>, AllocError>
    ensures { IfOk result (λ d. d ≡ names.local_denotes scope.now number) }
{
    match at(scope.slots.as_slice(), number as usize) {
        Some(ty) => variable(alloc, ty.get()),
        None => Ok(None),
    }
}

/// What a name before a dot denotes that is no variable: a class, or `System`; `None` where it is neither (JLS 6.5.2).
pub fn class_or_system(symbols: &Symbols, name: &Name) -> Option<Denotation>
    ensures { result ≡ spec.class_denotes symbols.now name.now }
{
    match symbols.class_number(name) {
        Some(class) => Some(Denotation::Class(class)),
        None => {
            if is_system(name) {
                Some(Denotation::System)
            } else {
                None
            }
        }
    }
}

// A field or constant of the class, else a class or `System`.
fn member_or_class(
    alloc: Global,
    symbols: &Symbols,
    scope: &Scope,
    name: &Name,
) -> Result<Option<Denotation>, AllocError>
    ensures { IfOk result (λ d. d ≡ spec.member_or_class symbols.now scope.now.class name.now) }
{
    match symbols.field(scope.class, name) {
        Some(field) => variable(alloc, field.ty.get()),
        None => Ok(class_or_system(symbols, name)),
    }
}

/// What a name denotes: a local, else a field or constant of the class or its superclasses, else a class or `System`;
/// `None` where it is unknown, and where the type of its declaration has an unknown name. `AllocError` where there is
/// no memory left.
pub fn name(
    alloc: Global,
    symbols: &Symbols,
    scope: &Scope,
    x: &Ident,
) -> Result<Option<Denotation>, AllocError>
    ensures { IfOk result (λ d. d ≡ spec.name_denotes symbols.now scope.now x.now) }
{
    match scope.local(&x.name) {
        Some(number) => local(alloc, scope, number),
        None => member_or_class(alloc, symbols, scope, &x.name),
    }
}

/// The field or constant of that name in class number `class`, its own or an inherited one; through an object only an
/// instance field. `None` where there is none (JLS 8.2, 15.11).
pub fn found<'a>(
    symbols: &'a Symbols,
    through: Through,
    class: u32,
    name: &Name,
) -> Option<&'a FieldSymbol>
    ensures { option_copied result ≡ found_through symbols.now through class name.now }
{
    match symbols.field(class, name) {
        Some(field) => {
            if field.place.is_some() || !matches!(through, Through::Object) {
                Some(field)
            } else {
                None
            }
        }
        None => None,
    }
}

// A field or constant through a class or an object of it.
fn member(
    alloc: Global,
    symbols: &Symbols,
    through: Through,
    class: u32,
    name: &Name,
) -> Result<Option<Denotation>, AllocError>
    ensures { IfOk result (λ d. d ≡ option_and_then (λ m. names.variable_denotes m.ty) (found_through symbols.now through class name.now)) }
{
    match found(symbols, through, class, name) {
        Some(field) => variable(alloc, field.ty.get()),
        None => Ok(None),
    }
}

// A name after a value.
fn behind_value(
    alloc: Global,
    symbols: &Symbols,
    o: &Known,
    ty: &Ty,
    f: &Ident,
) -> Result<Option<Denotation>, AllocError>
    ensures { IfOk result (λ d. d ≡ spec.field_denotes of_known symbols.now o.now f.now (Some (Denotation.Value ty.now))) }
{
    match class_of(ty) {
        Some(class) => member(alloc, symbols, Through::Object, class, &f.name),
        None => Ok(array_field(&f.name, ty)),
    }
}

/// What a name after a dot denotes: a field or constant of a class, `System.out`, or the length of an array; `None`
/// where it is unknown, and where the type of its declaration has an unknown name. `AllocError` where memory runs out.
pub fn field(
    alloc: Global,
    symbols: &Symbols,
    o: &Known,
    f: &Ident,
) -> Result<Option<Denotation>, AllocError>
    ensures { IfOk result (λ d. d ≡ spec.field_denotes of_known symbols.now o.now f.now o.now.denotes) }
{
    match &o.denotes {
        Some(Denotation::Class(class)) => member(alloc, symbols, Through::Class, *class, &f.name),
        Some(Denotation::Value(ty)) => behind_value(alloc, symbols, o, ty, f),
        _ => Ok(library_field(&f.name, &o.denotes)),
    }
}
