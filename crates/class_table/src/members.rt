//! The members of a class, as rows of the table.

ghost use Rattle.std.specs.Prelude.{◌≡◌, IfOk, OnOk, OnErr, [], ◌∷◌, ◌++◌};
ghost use Rattle.class_table.specs.Members as spec;

use crate::copies::{copy_answer, copy_mods, copy_type, names, names_of_params, types};
use crate::row::{FieldRow, MakerRow, MethodRow};
use java_syntax::{FieldTree, MakerTree, Member, MethodTree};
use sqlite_items::Items;
use std::alloc::{AllocError, Global};

/// The row of a field, without its place.
fn field_row(alloc: Global, owner: u32, field: &FieldTree) -> Result<FieldRow, AllocError>
    ensures { IfOk result (λ row. row ≡ spec.field_row owner field.now) }
{
    Ok(FieldRow {
        name: field.name.name.clone()?,
        ty: copy_type(&field.ty)?,
        owner,
        mods: copy_mods(alloc, &field.mods)?,
        place: None,
        at: field.name.at,
    })
}

/// The row of a method.
fn method_row(alloc: Global, method: &MethodTree) -> Result<MethodRow, AllocError>
    ensures { IfOk result (λ row. row ≡ spec.method_row method.now) }
{
    Ok(MethodRow {
        name: method.name.name.clone()?,
        params: types(alloc, method.params.as_slice())?,
        names: names_of_params(alloc, method.params.as_slice())?,
        answer: copy_answer(&method.answer)?,
        throws: names(alloc, method.throws.as_slice())?,
        mods: copy_mods(alloc, &method.mods)?,
        at: method.name.at,
    })
}

/// The row of a constructor.
fn maker_row(alloc: Global, maker: &MakerTree) -> Result<MakerRow, AllocError>
    ensures { IfOk result (λ row. row ≡ spec.maker_row maker.now) }
{
    Ok(MakerRow {
        params: types(alloc, maker.params.as_slice())?,
        throws: names(alloc, maker.throws.as_slice())?,
        mods: copy_mods(alloc, &maker.mods)?,
        at: maker.name.at,
    })
}

/// The fields and constants among the members of class number `owner`, without their places.
pub fn fields(alloc: Global, owner: u32, members: &[Member]) -> Result<Items<FieldRow>, AllocError>
    ensures { IfOk result (λ rows. rows ≡ spec.fields_in owner members.now) }
{
    let mut rows = Items::new(alloc);
    for member in members {
        if let Member::Field(field) = member {
            rows.push(field_row(alloc, owner, field)?)?;
        }
    }
    Ok(rows)
}

/// The methods among the members of a class.
pub fn methods(alloc: Global, members: &[Member]) -> Result<Items<MethodRow>, AllocError>
    ensures { IfOk result (λ rows. rows ≡ spec.methods_in members.now) }
{
    let mut rows = Items::new(alloc);
    for member in members {
        if let Member::Method(method) = member {
            rows.push(method_row(alloc, method)?)?;
        }
    }
    Ok(rows)
}

/// The constructors among the members of a class.
pub fn makers(alloc: Global, members: &[Member]) -> Result<Items<MakerRow>, AllocError>
    ensures { IfOk result (λ rows. rows ≡ spec.makers_in members.now) }
{
    let mut rows = Items::new(alloc);
    for member in members {
        if let Member::Maker(maker) = member {
            rows.push(maker_row(alloc, maker)?)?;
        }
    }
    Ok(rows)
}
