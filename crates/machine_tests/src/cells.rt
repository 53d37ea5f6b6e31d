//! A store seen by positions.

ghost use Rattle.std.specs.Prelude.{◌≡◌, [], ◌∷◌, IfOk};
ghost use Rattle.core_tree.specs.declared.ty.Ty.TheVariants as ty;
ghost use Rattle.heap_arena.specs.Heap.{field_types_of};

use core_tree::{Class, Field, OutOfMemory, Program, Text, Ty};
use heap_arena::{Cell, CopyStore, Kind};
use object_cells::{
    cell, class_at, elements_at, elements_count, kind_at, make, object_fits, write,
};
use sqlite_items::Items;
use std::alloc::Global;
use std::test::Fail;

fn field(alloc: Global, ty: Ty) -> Result<Field, OutOfMemory>
    ensures { IfOk result (λ field. field.ty ≡ ty) }
{
    Ok(Field {
        name: Text::new(alloc, Vec::new(alloc))?,
        ty,
        start: None,
        owner: 0,
    })
}

// A program with one class, whose fields are an int and an instance of it.
fn program(alloc: Global) -> Result<Program, OutOfMemory>
    ensures { IfOk result (λ p. field_types_of p ≡ (ty.Int ∷ ty.Class 0 ∷ []) ∷ []) }
{
    let mut fields = Items::new(alloc);
    fields.push(field(alloc, Ty::Int)?)?;
    fields.push(field(alloc, Ty::Class(0))?)?;
    let class = Class {
        name: Text::new(alloc, Vec::new(alloc))?,
        parent: None,
        fields,
        chosen: Items::new(alloc),
    };
    let mut classes = Items::new(alloc);
    classes.push(class)?;
    Ok(Program {
        classes,
        methods: Items::new(alloc),
        makers: Items::new(alloc),
        main: 0,
    })
}

// What a cell holds: a number, `null`, a position after `@`, or nothing where there is no cell.
fn written(alloc: Global, found: Option<Cell<u32>>) -> Result<String, OutOfMemory> {
    Ok(match found {
        None => String::new(alloc),
        Some(Cell::Int(n)) => format!(in alloc; "{n}")?,
        Some(Cell::Ref(position)) => format!(in alloc; "@{position}")?,
        Some(Cell::Bool(_) | Cell::Null | Cell::Text(_)) => String::from_str(alloc, "null")?,
    })
}

#[test]
fn cells_are_read_and_written_by_position(rt: HostRuntime) -> Result<(), Fail> {
    let alloc = rt.alloc();
    let mut store = CopyStore::new(alloc, &program(alloc)?)?;
    assert_eq!(rt; make(&mut store, Kind::Instance(0), 2)?, 0);
    assert_eq!(rt; make(&mut store, Kind::Array(Ty::Int), 3)?, 1);
    for (o, at, v, done) in [
        (0, 0, Cell::Int(7), true),
        (0, 1, Cell::Ref(1), true),
        (0, 1, Cell::Ref(2), false),
        (0, 2, Cell::Int(8), false),
        (1, 2, Cell::Int(9), true),
        (1, 3, Cell::Int(10), false),
        (2, 0, Cell::Int(11), false),
    ] {
        assert_eq!(rt; write(&mut store, o, at, v)?, done, "{at} of {o}");
    }
    for (o, at, expected) in [
        (0, 0, "7"),
        (0, 1, "@1"),
        (0, 2, ""),
        (1, 0, "0"),
        (1, 2, "9"),
        (1, 3, ""),
        (2, 0, ""),
    ] {
        let found = written(alloc, cell(&store, o, at)?)?;
        assert_eq!(rt; found.as_str(), expected, "{at} of {o}");
    }
    Ok(())
}

#[test]
fn kinds_are_told(rt: HostRuntime) -> Result<(), Fail> {
    let alloc = rt.alloc();
    let program = program(alloc)?;
    let mut store = CopyStore::new(alloc, &program)?;
    make(&mut store, Kind::Instance(0), 2)?;
    make(&mut store, Kind::Array(Ty::Int), 3)?;
    for (o, class, count, is_object) in [
        (0, Some(0), None, true),
        (1, None, Some(3), true),
        (2, None, None, false),
    ] {
        assert_eq!(rt; class_at(&store, o), class);
        assert_eq!(rt; elements_count(&store, o), count);
        assert_eq!(rt; kind_at(&store, o).is_some(), is_object);
        assert_eq!(rt; object_fits(&program, &store, o, &Ty::Class(0)), is_object);
        assert!(rt; !object_fits(&program, &store, o, &Ty::Int));
    }
    assert!(rt; matches!(elements_at(&store, 1), Some(Ty::Int)));
    assert!(rt; elements_at(&store, 0).is_none());
    Ok(())
}
