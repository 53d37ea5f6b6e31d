//! The rows of the table, and the limit on instance fields.

ghost use Rattle.std.specs.Prelude.{◌≡◌, ◌+◌, ◌++◌, ◌∷◌, ◌<◌, ◌≤◌, [], Some, length, filter, reverse, flat_map, IfOk, IfErr, OnOk, MatchOption};
ghost use Rattle.std.specs.List.{slice_get};
ghost use Rattle.class_table.specs.Ancestors.{line_at, superclasses};
ghost use Rattle.class_table.specs.Faults.{Blames, Clear, InSome, OfRule};
ghost use Rattle.class_table.specs.Fields.{instance_total, numbered, part_at, placed_at, placed_of};
ghost use Rattle.class_table.specs.Index.{IsIndex};
ghost use Rattle.class_table.specs.Members as member;
ghost use Rattle.class_table.specs.Rules.{TooManyFields};
ghost use Rattle.class_table.specs.Table as spec;

use crate::copies::{copy_mods, copy_type};
use crate::declaration::Declaration;
use crate::fields::above;
use crate::index::Index;
use crate::limits::{MAX_FIELDS, count, is_instance, total};
use crate::names::fault;
use crate::row::{ClassRow, FieldRow, Fields};
use core_tree::Shared;
use java_syntax::CheckError;
use sqlite_items::{Items, at};
use std::alloc::{AllocError, Global};

/// A copy of a field with this place.
fn copy_field(alloc: Global, field: &FieldRow, place: Option<u32>) -> Result<FieldRow, AllocError>
    ensures { IfOk result (λ row. row ≡ record field.now { place = place }) }
{
    Ok(FieldRow {
        name: field.name.clone()?,
        ty: copy_type(&field.ty)?,
        owner: field.owner,
        mods: copy_mods(alloc, &field.mods)?,
        place,
        at: field.at,
    })
}

/// Copies of fields with their places, numbered on from `start`.
fn placed(alloc: Global, fields: &[FieldRow], start: u32) -> Result<Items<FieldRow>, AllocError>
    requires { start + length (filter member.is_instance fields.now) ≤ 255 }
    ensures { IfOk result (λ rows. rows ≡ numbered start fields.now) }
{
    let mut rows = Items::new(alloc);
    let mut next = start;
    for field in fields {
        if is_instance(field) {
            rows.push(copy_field(alloc, field, Some(next))?)?;
            next += 1;
        } else {
            rows.push(copy_field(alloc, field, None)?)?;
        }
    }
    Ok(rows)
}

/// How many instance fields the superclasses of a class declare, or `None` where they are too many.
fn start_of(index: &Index, number: usize) -> Option<u32>
    requires { IsIndex index.now }
    ensures { MatchOption result (255 < instance_total index.now.declared (superclasses index.now.declared number)) (λ start. (start ≡ instance_total index.now.declared (superclasses index.now.declared number)) × (start ≤ 255)) }
{
    total(index, above(index.lines.as_slice(), number))
}

/// The fields that a class declares, with their places.
#[tactic(auto, using(crate::proofs::RowLemmas::placing))]
fn place_class(
    alloc: Global,
    index: &Index,
    number: usize,
    class: &Declaration,
) -> Result<Items<FieldRow>, CheckError>
    requires index { IsIndex index.now }
    requires class { slice_get index.now.declared number ≡ Some class.now }
    ensures rows { IfOk result (λ rows. rows ≡ placed_at index.now.declared number) }
    ensures fault { IfErr result (Blames (OfRule 9 (TooManyFields index.now.declared number class.now))) }
    ensures clear { OnOk result (Clear (OfRule 9 (TooManyFields index.now.declared number class.now))) }
{
    let Some(start) = start_of(index, number) else {
        return Err(fault(9, class.at));
    };
    if count(class.fields.as_slice()) > MAX_FIELDS - start as usize {
        return Err(fault(9, class.at));
    }
    Ok(placed(alloc, class.fields.as_slice(), start)?)
}

/// The fields that each class declares, with their places.
#[tactic(auto, using(crate::proofs::Faults::loops))]
pub fn place_all(
    alloc: Global,
    index: &Index,
    declared: &[Declaration],
) -> Result<Items<Shared<Items<FieldRow>>>, CheckError>
    requires index { IsIndex index.now }
    requires same { declared.now ≡ index.now.declared }
    ensures parts { IfOk result (λ parts. parts ≡ placed_of index.now.declared) }
    ensures fault { IfErr result (Blames (InSome declared.now (λ number d. OfRule 9 (TooManyFields index.now.declared number d)))) }
    ensures clear { OnOk result (Clear (InSome declared.now (λ number d. OfRule 9 (TooManyFields index.now.declared number d)))) }
{
    let mut parts = Items::new(alloc);
    let mut number = 0usize;
    for class in declared {
        let fields = place_class(alloc, index, number, class)?;
        parts.push(Shared::new(alloc, fields)?)?;
        number += 1;
    }
    Ok(parts)
}

/// The fields along a line of classes, those of the highest class first.
fn fields_of(
    alloc: Global,
    parts: &[Shared<Items<FieldRow>>],
    line: &[u32],
) -> Result<Fields, AllocError>
    ensures { IfOk result (λ fields. fields ≡ flat_map (part_at parts.now) (reverse line.now)) }
{
    let mut shared = Items::new(alloc);
    let mut rest = line;
    while let [lower @ .., highest] = rest {
        if let Some(part) = at(parts, *highest as usize) {
            shared.push(part.share()?)?;
        }
        rest = lower;
    }
    Ok(Fields::new(shared))
}

/// The row of class number `number`.
#[tactic(auto, using(crate::proofs::RowLemmas::parts_along))]
fn row(
    alloc: Global,
    index: &Index,
    parts: &[Shared<Items<FieldRow>>],
    number: usize,
    class: &Declaration,
) -> Result<ClassRow, AllocError>
    requires index { IsIndex index.now }
    requires parts { parts.now ≡ placed_of index.now.declared }
    ensures { IfOk result (λ row. row ≡ spec.row_of index.now.declared number class.now) }
{
    let line = line_of(index, number);
    Ok(ClassRow {
        name: class.name.clone()?,
        parent: class.parent,
        line: Items::from_slice(alloc, line)?,
        fields: fields_of(alloc, parts, line)?,
        methods: class.methods.share()?,
        makers: class.makers.share()?,
        at: class.at,
    })
}

/// The rows of the classes by their numbers.
pub fn rows(
    alloc: Global,
    index: &Index,
    parts: &[Shared<Items<FieldRow>>],
    declared: &[Declaration],
) -> Result<Items<ClassRow>, AllocError>
    requires index { IsIndex index.now }
    requires parts { parts.now ≡ placed_of index.now.declared }
    ensures { IfOk result (λ rows. rows ≡ spec.rows_from index.now.declared 0 declared.now) }
{
    let mut rows = Items::new(alloc);
    let mut number = 0usize;
    for class in declared {
        rows.push(row(alloc, index, parts, number, class)?)?;
        number += 1;
    }
    Ok(rows)
}

/// The line of a class.
#[tactic(auto, using(crate::proofs::IndexLemmas::line_of_index))]
fn line_of(index: &Index, class: usize) -> &[u32]
    requires { IsIndex index.now }
    ensures { result.now ≡ line_at index.now.declared class }
{
    match at(index.lines.as_slice(), class) {
        Some(line) => line.as_slice(),
        None => &[],
    }
}
