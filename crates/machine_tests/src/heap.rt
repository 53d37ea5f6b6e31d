//! The heap: what is made, written and read, and what marks do to it.

ghost use Rattle.std.specs.Prelude.{◌≡◌, [], ◌∷◌, IfOk};
ghost use Rattle.core_tree.specs.declared.ty.Ty.TheVariants as ty;
ghost use Rattle.heap_arena.specs.Heap.{field_types_of};

use core_tree::{Class, Field, OutOfMemory, Program, Text, Ty};
use heap_arena::law::nest;
use heap_arena::{Cell, CopyStore, Kind, MakeError, ObjRef, Store};
use sqlite_items::Items;
use std::alloc::Global;
use std::test::Fail;

fn name(alloc: Global) -> Result<Text, OutOfMemory> {
    Text::new(alloc, Vec::from_array(alloc, ['x'])?)
}

fn field(alloc: Global, ty: Ty) -> Result<Field, OutOfMemory>
    ensures { IfOk result (λ field. field.ty ≡ ty) }
{
    Ok(Field {
        name: name(alloc)?,
        ty,
        start: None,
        owner: 0,
    })
}

// A program with one class, whose fields are an int and a String.
fn program(alloc: Global) -> Result<Program, OutOfMemory>
    ensures { IfOk result (λ p. field_types_of p ≡ (ty.Int ∷ ty.Text ∷ []) ∷ []) }
{
    let mut fields = Items::new(alloc);
    fields.push(field(alloc, Ty::Int)?)?;
    fields.push(field(alloc, Ty::Text)?)?;
    let class = Class {
        name: name(alloc)?,
        parent: None,
        fields,
        chosen: Items::new(alloc),
    };
    let mut classes = Items::new(alloc);
    classes.push(class)?;
    Ok(Program {
        classes,
        methods: Items::new(alloc),
        makers: Items::new(alloc),
        main: 0,
    })
}

// A number, or a boolean as a number; none for every other value.
fn number(cell: &Cell<ObjRef>) -> Option<i32> {
    match cell {
        Cell::Int(n) => Some(*n),
        Cell::Bool(b) => Some(i32::from(*b)),
        Cell::Null | Cell::Ref(_) | Cell::Text(_) => None,
    }
}

#[test]
fn undo_gives_the_marked_heap(rt: HostRuntime) -> Result<(), Fail> {
    let alloc = rt.alloc();
    let mut store = CopyStore::new(alloc, &program(alloc)?)?;
    let object = store.make(Kind::Array(Ty::Int), 1)?;
    store.write(object, 0, Cell::Int(1))?;
    store.mark()?;
    store.write(object, 0, Cell::Int(2))?;
    store.make(Kind::Array(Ty::Int), 3)?;
    assert_eq!(rt; number(&store.old_read(0, 0)?), Some(1));
    assert_eq!(rt; store.old_len(), 1);
    assert_eq!(rt; (store.len(), store.cells()), (2, 6));
    store.undo();
    assert_eq!(rt; (store.len(), store.cells()), (1, 2));
    assert_eq!(rt; number(&store.read(object, 0)?), Some(1));
    Ok(())
}

#[test]
fn objects_begin_with_defaults(rt: HostRuntime) -> Result<(), Fail> {
    let alloc = rt.alloc();
    let mut store = CopyStore::new(alloc, &program(alloc)?)?;
    let object = store.make(Kind::Instance(0), 2)?;
    assert_eq!(rt; number(&store.read(object, 0)?), Some(0));
    assert!(rt; matches!(store.read(object, 1)?, Cell::Null));
    assert_eq!(rt; store.size_of(object), 2);
    assert!(rt; matches!(store.kind_of(object), Kind::Instance(0)));
    assert_eq!(rt; store.position(store.at(0)), 0);
    Ok(())
}

#[test]
fn elements_begin_with_defaults(rt: HostRuntime) -> Result<(), Fail> {
    let alloc = rt.alloc();
    let mut store = CopyStore::new(alloc, &program(alloc)?)?;
    let flags = store.make(Kind::Array(Ty::Bool), 2)?;
    assert_eq!(rt; number(&store.read(flags, 1)?), Some(0));
    assert!(rt; matches!(store.kind_of(flags).copy(alloc)?, Kind::Array(Ty::Bool)));
    Ok(())
}

#[test]
fn keep_leaves_the_heap(rt: HostRuntime) -> Result<(), Fail> {
    let alloc = rt.alloc();
    let mut store = CopyStore::new(alloc, &program(alloc)?)?;
    let texts = store.make(Kind::Array(Ty::Text), 1)?;
    store.mark()?;
    store.write(texts, 0, Cell::Text(name(alloc)?))?;
    store.keep();
    let cell = store.read(texts, 0)?.copy()?;
    assert!(rt; matches!(&cell, Cell::Text(text) if text.characters() == ['x'].as_slice()));
    Ok(())
}

#[test]
fn marks_nest(rt: HostRuntime) -> Result<(), Fail> {
    let alloc = rt.alloc();
    let mut store = CopyStore::new(alloc, &program(alloc)?)?;
    let object = store.make(Kind::Array(Ty::Int), 1)?;
    nest(&mut store, object, 0, 5, false)?;
    assert_eq!(rt;
        (store.len(), number(&store.read(object, 0)?)),
        (1, Some(0))
    );
    nest(&mut store, object, 0, 5, true)?;
    assert_eq!(rt; store.len(), 3);
    Ok(())
}

#[test]
fn a_heap_has_a_limit(rt: HostRuntime) -> Result<(), Fail> {
    let alloc = rt.alloc();
    let mut store = CopyStore::new(alloc, &program(alloc)?)?;
    store.make(Kind::Array(Ty::Text), 0)?;
    for (size, refused) in [
        (16_777_215, Some(MakeError::Full)),
        (4_294_967_295, Some(MakeError::Full)),
        (16_777_214, None),
        (0, Some(MakeError::Full)),
    ] {
        let made = store.make(Kind::Array(Ty::Int), size).err();
        assert_eq!(rt; made, refused, "size {size}");
    }
    assert_eq!(rt; store.cells(), 16_777_216);
    Ok(())
}
