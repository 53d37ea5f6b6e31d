//! Which class is below which, and which value a variable may have.

use class_order::{is_assignable, is_subclass, kind_fits};
use core_tree::{Class, OutOfMemory, Text, Ty};
use heap_arena::Kind;
use sqlite_items::{Boxed, Items};
use std::alloc::Global;
use std::test::Fail;

// The classes Object, A below Object and B below A, one whose superclass is missing, and two that are each other's
// ancestor.
fn classes(alloc: Global) -> Result<Items<Class>, OutOfMemory> {
    let mut classes = Items::new(alloc);
    for parent in [None, Some(0), Some(1), Some(9), Some(5), Some(4)] {
        classes.push(Class {
            name: Text::new(alloc, Vec::new(alloc))?,
            parent,
            fields: Items::new(alloc),
            chosen: Items::new(alloc),
        })?;
    }
    Ok(classes)
}

fn array_of(alloc: Global, elements: Ty) -> Result<Ty, OutOfMemory> {
    Ok(Ty::Array(Boxed::new(alloc, elements)?))
}

// int, boolean, String, Object, A, B, int[], A[], B[], Object[], int[][].
fn types(alloc: Global) -> Result<Vec<Ty>, OutOfMemory> {
    let mut types = Vec::new(alloc);
    for ty in [
        Ty::Int,
        Ty::Bool,
        Ty::Text,
        Ty::Class(0),
        Ty::Class(1),
        Ty::Class(2),
    ] {
        types.push(ty)?;
    }
    types.push(array_of(alloc, Ty::Int)?)?;
    types.push(array_of(alloc, Ty::Class(1))?)?;
    types.push(array_of(alloc, Ty::Class(2))?)?;
    types.push(array_of(alloc, Ty::Class(0))?)?;
    types.push(array_of(alloc, array_of(alloc, Ty::Int)?)?)?;
    Ok(types)
}

fn sign(fits: bool) -> char {
    if fits { '1' } else { '0' }
}

#[test]
fn classes_are_in_order(rt: HostRuntime) -> Result<(), Fail> {
    let classes = classes(rt.alloc())?;
    for (class, of, expected) in [
        (0, 0, true),
        (2, 0, true),
        (2, 1, true),
        (2, 2, true),
        (1, 2, false),
        (0, 9, false),
        (9, 0, false),
        (9, 9, false),
        (3, 3, false),
        (4, 4, false),
        (4, 5, false),
    ] {
        assert_eq!(rt;
            is_subclass(&classes, class, of),
            expected,
            "{class} below {of}"
        );
    }
    Ok(())
}

// What may be assigned to a variable of each type from this one.
fn row(
    alloc: Global,
    classes: &Items<Class>,
    from: &Ty,
    types: &Vec<Ty>,
) -> Result<String, OutOfMemory> {
    let mut row = String::new(alloc);
    for to in types {
        row.push(sign(is_assignable(classes, from, to)))?;
    }
    Ok(row)
}

// The same from an object of a kind.
fn kind_row(
    alloc: Global,
    classes: &Items<Class>,
    kind: &Kind,
    types: &Vec<Ty>,
) -> Result<String, OutOfMemory> {
    let mut row = String::new(alloc);
    for to in types {
        row.push(sign(kind_fits(classes, kind, to)))?;
    }
    Ok(row)
}

/// Which assignments `javac` 17 accepts, one row for each type that is assigned, the null type last, and one column for
/// each type of a variable; but no int, boolean or String is an Object here, and nothing is boxed.
#[test]
fn types_fit_as_javac_says(rt: HostRuntime) -> Result<(), Fail> {
    let alloc = rt.alloc();
    let classes = classes(alloc)?;
    let types = types(alloc)?;
    let mut rows = String::new(alloc);
    for from in &types {
        rows.push_str(row(alloc, &classes, from, &types)?.as_str())?;
        rows.push(' ')?;
    }
    rows.push_str(row(alloc, &classes, &Ty::Null, &types)?.as_str())?;
    assert_eq!(rt;
        rows.as_str(),
        "10000000000 01000000000 00100000000 00010000000 00011000000 00011100000 00010010000 00010001010 00010001110 \
        00010000010 00010000011 00111111111"
    );
    Ok(())
}

/// An instance of B and an array of A, as the types B and A[] in the table above.
#[test]
fn kinds_fit_as_their_types(rt: HostRuntime) -> Result<(), Fail> {
    let alloc = rt.alloc();
    let classes = classes(alloc)?;
    let types = types(alloc)?;
    let instance = kind_row(alloc, &classes, &Kind::Instance(2), &types)?;
    assert_eq!(rt; instance.as_str(), "00011100000");
    let array = kind_row(alloc, &classes, &Kind::Array(Ty::Class(1)), &types)?;
    assert_eq!(rt; array.as_str(), "00010001010");
    Ok(())
}
