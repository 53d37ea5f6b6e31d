//! The types that are spelled in a file.

ghost use Rattle.std.specs.Prelude.{◌≡◌, [], ◌∷◌, IfOk, IfErr, OnOk, Some};
ghost use Rattle.class_table.specs.Faults.{Blames, OfRule};
ghost use Rattle.java_names.specs.Types as spec;
ghost use Rattle.token_reading.specs.declared.fault.Fault.{Fault};

use crate::numbering::Numbering;
use core_tree::{Shared, Ty};
use java_syntax::{BaseType, CheckError, Fault, TypeTree};
use java_tokens::Name;
use sqlite_items::{Boxed, Items};
use std::alloc::{AllocError, Global};

/// Whether a name is `String`.
fn is_string(name: &Name) -> bool
    ensures { result ≡ spec.is_string name.now }
{
    matches!(name.characters(), ['S', 't', 'r', 'i', 'n', 'g'])
}

/// The type that a name stands for, where the classes have these names; `None` where that is unknown.
fn named_type(names: &Numbering<Name>, name: &Name) -> Option<Ty>
    ensures { result ≡ spec.named_type names.now name.now }
{
    if is_string(name) {
        return Some(Ty::Text);
    }
    match names.number(name) {
        Some(class) => Some(Ty::Class(class)),
        None => None,
    }
}

/// The type of a base; `None` where its name is unknown.
fn base_type(names: &Numbering<Name>, base: &BaseType) -> Option<Ty>
    ensures { result ≡ spec.base_type names.now base.now }
{
    match base {
        BaseType::Int => Some(Ty::Int),
        BaseType::Boolean => Some(Ty::Bool),
        BaseType::Class(class) => named_type(names, &class.name),
    }
}

/// How many pairs of brackets a type may have: as many as in a class file (JVMS 4.3.2). A type is copied, compared and
/// dropped by recursion, so without a limit the stack would be wanting.
const MAX_DIMENSIONS: u32 = 255;

/// The type of arrays with that many pairs of brackets after this type (JLS 10.1). `AllocError` where there is no
/// memory left, or where there are more than 255.
pub fn arrays(alloc: Global, ty: Ty, dimensions: u32) -> Result<Ty, AllocError>
    ensures { IfOk result (λ t. t ≡ spec.arrays dimensions ty) }
{
    if dimensions > MAX_DIMENSIONS {
        return Err(AllocError);
    }
    let mut ty = ty;
    for _ in 0..dimensions {
        ty = Ty::Array(Boxed::new(alloc, ty)?);
    }
    Ok(ty)
}

/// The type that is spelled, where the classes have these names; `None` where its name is unknown (JLS 4.2, 4.3).
/// `AllocError` where memory runs out, or where it has more than 255 pairs of brackets.
pub fn type_of(
    alloc: Global,
    names: &Numbering<Name>,
    tree: &TypeTree,
) -> Result<Option<Ty>, AllocError>
    ensures { IfOk result (λ t. t ≡ spec.type_of names.now tree.now) }
{
    match base_type(names, &tree.base) {
        Some(base) => Ok(Some(arrays(alloc, base, tree.dimensions)?)),
        None => Ok(None),
    }
}

/// The error of a type whose base has an unknown name.
fn unknown(base: &BaseType) -> CheckError
    ensures { result ≡ CheckError.Fault (record { rule = 10; at = spec.place_of base.now }) }
{
    let at = match base {
        BaseType::Class(class) => class.at,
        _ => 0,
    };
    CheckError::Fault(Fault { rule: 10, at })
}

/// The type of a base without brackets, where the classes have these names (JLS 4.2, 4.3).
///
/// # Errors
/// `Fault` of rule 10 at its name, where that is unknown.
pub fn resolve_base(names: &Numbering<Name>, base: &BaseType) -> Result<Ty, CheckError>
    ensures found { IfOk result (λ t. spec.base_type names.now base.now ≡ Some t) }
    ensures known { OnOk result (spec.unknown_base names.now base.now ≡ []) }
    ensures fault { IfErr result (Blames (OfRule 10 (λ at. spec.unknown_base names.now base.now ≡ at ∷ []))) }
{
    match base_type(names, base) {
        Some(ty) => Ok(ty),
        None => Err(unknown(base)),
    }
}

/// The type that is spelled, where the classes have these names (JLS 4.2, 4.3).
///
/// # Errors
/// `Fault` of rule 10 at the name, where that is unknown. `OutOfMemory` where memory runs out, or where the type has
/// more than 255 pairs of brackets.
pub fn resolve_type(
    alloc: Global,
    names: &Numbering<Name>,
    tree: &TypeTree,
) -> Result<Ty, CheckError>
    ensures found { IfOk result (λ t. spec.type_of names.now tree.now ≡ Some t) }
    ensures known { OnOk result (spec.unknown_type names.now tree.now ≡ []) }
    ensures fault { IfErr result (Blames (OfRule 10 (λ at. spec.unknown_type names.now tree.now ≡ at ∷ []))) }
{
    let base = resolve_base(names, &tree.base)?;
    Ok(arrays(alloc, base, tree.dimensions)?)
}

/// The type of a declaration; `Void` where its name is unknown.
pub fn declared_type(
    alloc: Global,
    names: &Numbering<Name>,
    tree: &TypeTree,
) -> Result<Shared<Ty>, AllocError>
    ensures { IfOk result (λ t. t ≡ spec.declared_type names.now tree.now) }
{
    match type_of(alloc, names, tree)? {
        Some(ty) => Shared::new(alloc, ty),
        None => Shared::new(alloc, Ty::Void),
    }
}

/// The types of declarations in order.
pub fn declared_types(
    alloc: Global,
    names: &Numbering<Name>,
    trees: &[TypeTree],
) -> Result<Items<Shared<Ty>>, AllocError>
    ensures { IfOk result (λ types. types ≡ spec.declared_types names.now trees.now) }
{
    let mut types = Items::new(alloc);
    for tree in trees {
        types.push(declared_type(alloc, names, tree)?)?;
    }
    Ok(types)
}

/// The type of a result; `Void` where there is none, and where its name is unknown.
pub fn answer_type(
    alloc: Global,
    names: &Numbering<Name>,
    answer: &Option<TypeTree>,
) -> Result<Shared<Ty>, AllocError>
    ensures { IfOk result (λ t. t ≡ spec.answer_type names.now answer.now) }
{
    match answer {
        Some(tree) => declared_type(alloc, names, tree),
        None => Shared::new(alloc, Ty::Void),
    }
}

/// The type of what a catch clause takes whose class has this name; `Void` where that is unknown (JLS 14.20).
pub fn exception_type(
    alloc: Global,
    names: &Numbering<Name>,
    name: &Name,
) -> Result<Shared<Ty>, AllocError>
    ensures { IfOk result (λ t. t ≡ spec.exception_type names.now name.now) }
{
    match names.number(name) {
        Some(class) => Shared::new(alloc, Ty::Class(class)),
        None => Shared::new(alloc, Ty::Void),
    }
}
