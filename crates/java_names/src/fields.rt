//! The fields that a class declares itself.

ghost use Rattle.std.specs.Prelude.{◌≡◌, [], ◌∷◌, IfOk, OnOk};
ghost use Rattle.java_names.specs.Symbols as spec;

use crate::mods::is_private;
use crate::numbering::Numbering;
use crate::symbol::{FieldSymbol, Fields};
use crate::types::declared_type;
use class_table::{ClassRow, FieldRow};
use java_tokens::Name;
use sqlite_items::Items;
use std::alloc::{AllocError, Global};

/// The symbol of a field.
fn field_symbol(
    alloc: Global,
    names: &Numbering<Name>,
    field: &FieldRow,
) -> Result<FieldSymbol, AllocError>
    ensures { IfOk result (λ symbol. symbol ≡ spec.field_symbol names.now field.now) }
{
    Ok(FieldSymbol {
        owner: field.owner,
        name: field.name.clone()?,
        ty: declared_type(alloc, names, &field.ty)?,
        place: field.place,
        is_private: is_private(&field.mods),
        at: field.at,
    })
}

/// Adds a field.
fn add(
    alloc: Global,
    fields: &mut Fields,
    names: &Numbering<Name>,
    field: &FieldRow,
) -> Result<(), AllocError>
    ensures { OnOk result (fields.new ≡ spec.with_fields names.now fields.old (field.now ∷ [])) }
{
    let symbol = field_symbol(alloc, names, field)?;
    fields.symbols.push(symbol)?;
    fields.names.push(field.name.clone()?, field.name.clone()?)
}

/// Adds those of some fields that class number `class` declares.
fn add_own(
    alloc: Global,
    fields: &mut Fields,
    names: &Numbering<Name>,
    class: u32,
    rows: &[FieldRow],
) -> Result<(), AllocError>
    ensures { OnOk result (fields.new ≡ spec.with_fields names.now fields.old (spec.own_fields class rows.now)) }
{
    for field in rows {
        if field.owner == class {
            add(alloc, fields, names, field)?;
        }
    }
    Ok(())
}

/// The fields that class number `class` declares itself. `AllocError` where memory runs out, or no number.
pub fn fields(
    alloc: Global,
    names: &Numbering<Name>,
    class: u32,
    row: &ClassRow,
) -> Result<Fields, AllocError>
    ensures { IfOk result (λ fields. fields ≡ spec.fields_of names.now (spec.own_fields class row.now.fields)) }
{
    let mut fields = Fields {
        symbols: Items::new(alloc),
        names: Numbering::new(alloc),
    };
    for part in row.fields.parts() {
        add_own(alloc, &mut fields, names, class, part.get().as_slice())?;
    }
    Ok(fields)
}
