//! Copies of parts of the tree.

ghost use Rattle.std.specs.Prelude.{◌≡◌, map, IfOk};
ghost use Rattle.class_table.specs.Members.{types_of, param_names, names_of};

use java_syntax::{BaseType, Ident, Mods, ParamTree, TypeTree};
use java_tokens::Name;
use sqlite_items::Items;
use std::alloc::{AllocError, Global};

/// A copy of a base type.
fn copy_base(base: &BaseType) -> Result<BaseType, AllocError>
    ensures { IfOk result (λ copy. copy ≡ base.now) }
{
    match base {
        BaseType::Int => Ok(BaseType::Int),
        BaseType::Boolean => Ok(BaseType::Boolean),
        BaseType::Class(ident) => Ok(BaseType::Class(Ident {
            at: ident.at,
            name: ident.name.clone()?,
        })),
    }
}

/// A copy of a type. `AllocError` where memory runs out.
pub fn copy_type(ty: &TypeTree) -> Result<TypeTree, AllocError>
    ensures { IfOk result (λ copy. copy ≡ ty.now) }
{
    Ok(TypeTree {
        base: copy_base(&ty.base)?,
        dimensions: ty.dimensions,
    })
}

/// A copy of a result type, `None` for `void`. `AllocError` where memory runs out.
pub fn copy_answer(answer: &Option<TypeTree>) -> Result<Option<TypeTree>, AllocError>
    ensures { IfOk result (λ copy. copy ≡ answer.now) }
{
    match answer {
        Some(ty) => Ok(Some(copy_type(ty)?)),
        None => Ok(None),
    }
}

/// A copy of modifiers, in order. `AllocError` where memory runs out.
pub fn copy_mods(alloc: Global, mods: &Mods) -> Result<Mods, AllocError>
    ensures { IfOk result (λ copy. copy ≡ mods.now) }
{
    Ok(Mods {
        words: Items::from_slice(alloc, mods.words.as_slice())?,
    })
}

/// The types of parameters, in order.
pub fn types(alloc: Global, params: &[ParamTree]) -> Result<Items<TypeTree>, AllocError>
    ensures { IfOk result (λ types. types ≡ types_of params.now) }
{
    let mut types = Items::new(alloc);
    for param in params {
        types.push(copy_type(&param.ty)?)?;
    }
    Ok(types)
}

/// The names of parameters, in order.
pub fn names_of_params(alloc: Global, params: &[ParamTree]) -> Result<Items<Name>, AllocError>
    ensures { IfOk result (λ names. names ≡ param_names params.now) }
{
    let mut names = Items::new(alloc);
    for param in params {
        names.push(param.name.name.clone()?)?;
    }
    Ok(names)
}

/// The names that identifiers spell, in order.
pub fn names(alloc: Global, idents: &[Ident]) -> Result<Items<Name>, AllocError>
    ensures { IfOk result (λ names. names ≡ names_of idents.now) }
{
    let mut names = Items::new(alloc);
    for ident in idents {
        names.push(ident.name.clone()?)?;
    }
    Ok(names)
}
