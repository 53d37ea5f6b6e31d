ghost use Rattle.std.specs.Prelude.{◌≡◌, length, map, replicate, IfOk, IsOk, IsSome};
ghost use Rattle.heap_arena.specs.Heap.{cell_at, default_of, defaults, field_types_of, FitsKind, RefersWithin};
ghost use Rattle.heap_arena.specs.Marks.{IsSound};
ghost use Rattle.heap_arena.specs.State.{after_write, new_state};

use crate::object_list::ObjectList;
use crate::stack::Stack;
use crate::{Cell, Kind, MakeError, ObjRef, Store};
use core_tree::{Class, OutOfMemory, Program, Ty};
use sqlite_items::Items;
use std::alloc::Global;

/// The most cells of a heap.
const MOST_CELLS: u32 = 16_777_216;

/// A store whose marks are whole copies of the heap. `read` and `write` take constant time, and `make` takes time for
/// the cells of its object alone, amortized; `mark` and `undo` go over the whole heap. `write` takes no memory.
#[derive(Drop)]
pub struct CopyStore {
    heap: ObjectList,
    marks: Stack<ObjectList>,
    field_types: Items<Items<Ty>>,
    alloc: Global,
    ghost sound: { IsSound heap marks },
}

// The value with which a variable of a type begins.
fn default_of(ty: &Ty) -> Cell<ObjRef>
    ensures { result ≡ default_of ty.now }
{
    match ty {
        Ty::Int => Cell::Int(0),
        Ty::Bool => Cell::Bool(false),
        _ => Cell::Null,
    }
}

// The values with which the fields of these types begin.
fn field_defaults(alloc: Global, types: &[Ty]) -> Result<Items<Cell<ObjRef>>, OutOfMemory>
    ensures { IfOk result (λ cells. cells ≡ map default_of types.now) }
{
    let mut cells = Vec::with_capacity(alloc, types.len())?;
    for ty in types {
        cells.push(default_of(ty))?;
    }
    Ok(Items::from_vec(cells))
}

// The values with which that many elements of a type begin.
fn element_defaults(alloc: Global, ty: &Ty, count: u32) -> Result<Items<Cell<ObjRef>>, OutOfMemory>
    ensures { IfOk result (λ cells. cells ≡ replicate count (default_of ty.now)) }
{
    let mut cells = Vec::with_capacity(alloc, count as usize)?;
    for _ in 0..count {
        cells.push(default_of(ty))?;
    }
    Ok(Items::from_vec(cells))
}

// The types of the fields of a class.
fn field_types(alloc: Global, class: &Class) -> Result<Items<Ty>, OutOfMemory>
    ensures { IfOk result (λ types. types ≡ map (λ field. field.ty) class.now.fields) }
{
    let mut types = Items::new(alloc);
    for field in class.fields.as_slice() {
        types.push(field.ty.copy(alloc)?)?;
    }
    Ok(types)
}

// The types of the fields of each class.
fn types_of_program(alloc: Global, program: &Program) -> Result<Items<Items<Ty>>, OutOfMemory>
    ensures { IfOk result (λ types. types ≡ field_types_of program.now) }
{
    let mut types = Items::new(alloc);
    for class in program.classes.as_slice() {
        types.push(field_types(alloc, class)?)?;
    }
    Ok(types)
}

impl CopyStore {
    /// A store with no object and no mark, for the classes of a program.
    pub fn new(alloc: Global, program: &Program) -> Result<CopyStore, OutOfMemory>
        ensures { IfOk result (λ store. ⟦<CopyStore as Store>⟧.state store ≡ new_state program.now) }
    {
        Ok(CopyStore {
            heap: ObjectList::new(alloc),
            marks: Stack::new(alloc),
            field_types: types_of_program(alloc, program)?,
            alloc,
        })
    }

    // The values with which an object of this kind, with that many cells, begins.
    fn defaults(&self, kind: &Kind, cells: u32) -> Result<Items<Cell<ObjRef>>, OutOfMemory>
        requires { FitsKind self.now.field_types kind.now cells }
        ensures { IfOk result (λ values. values ≡ defaults self.now.field_types kind.now cells) }
    {
        match kind {
            Kind::Instance(class) => {
                field_defaults(
                    self.alloc,
                    self.field_types.as_slice()[*class as usize].as_slice(),
                )
            }
            Kind::Array(elements) => element_defaults(self.alloc, elements, cells),
        }
    }
}

impl Store for CopyStore {
    type Obj = ObjRef;

    ghost state = { λ store. record { now = store.heap; marks = store.marks; field_types = store.field_types } };

    ghost position_of = { λ store object. object };

    fn make(&mut self, kind: Kind, cells: u32) -> Result<ObjRef, MakeError> {
        if cells >= MOST_CELLS - self.heap.cells() {
            return Err(MakeError::Full);
        }
        let values = self.defaults(&kind, cells)?;
        let position = self.heap.len();
        self.heap.push(kind, values)?;
        Ok(ObjRef { position })
    }

    fn read(&self, o: ObjRef, at: u32) -> Result<Cell<ObjRef>, OutOfMemory> {
        self.heap.read(o.position, at)
    }

    fn write(&mut self, o: ObjRef, at: u32, v: Cell<ObjRef>) -> Result<(), OutOfMemory>
        requires cell { IsSome (cell_at (⟦<CopyStore as Store>⟧.state self.old).now o at) }
        requires value { RefersWithin (length (⟦<CopyStore as Store>⟧.state self.old).now) v }
        ensures no_memory { IsOk result }
        ensures written { ⟦<CopyStore as Store>⟧.state self.new ≡
            after_write (⟦<CopyStore as Store>⟧.state self.old) o at v }
    {
        self.heap.write(o.position, at, v);
        Ok(())
    }

    fn size_of(&self, o: ObjRef) -> u32 {
        self.heap.size_of(o.position)
    }

    fn kind_of(&self, o: ObjRef) -> &Kind {
        self.heap.kind_of(o.position)
    }

    fn len(&self) -> u32 {
        self.heap.len()
    }

    fn cells(&self) -> u32 {
        self.heap.cells()
    }

    fn at(&self, position: u32) -> ObjRef {
        ObjRef { position }
    }

    fn position(&self, o: ObjRef) -> u32 {
        o.position
    }

    fn mark(&mut self) -> Result<(), OutOfMemory> {
        let copy = self.heap.copy(self.alloc)?;
        self.marks.push(copy)?;
        Ok(())
    }

    fn undo(&mut self) {
        if let Some(mark) = self.marks.pop() {
            self.heap = mark;
        }
    }

    fn keep(&mut self) {
        drop(self.marks.pop());
    }

    fn old_read(&self, position: u32, at: u32) -> Result<Cell<ObjRef>, OutOfMemory> {
        self.marks.top().read(position, at)
    }

    fn old_len(&self) -> u32 {
        self.marks.top().len()
    }

    ghost use Rattle.std.proofs.Common.{rules};

    ghost sound = { λ store. store.sound };

    ghost distinct = { λ store a b _ is. is };

    ghost same = { Prim.search rules };
}
