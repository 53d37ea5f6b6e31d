ghost use Rattle.std.specs.Prelude.{◌≡◌, ◌<◌, ◌+◌, ◌^◌, ℕ, List, [], ◌∷◌, ◌++◌, length, option_map, slice_get, Some, IsSome, IfOk, IsErr, OnOk, OnErr};
ghost use Rattle.heap_arena.specs.declared.cell.Cell.TheVariants as value;
ghost use Rattle.heap_arena.specs.Heap.{cell_at, cell_count, written};

use crate::object::Object;
use crate::{Cell, Kind, ObjRef};
use core_tree::OutOfMemory;
use sqlite_items::Items;
use std::alloc::{AllocError, Global};
use std::marker::Model;

/// The objects of a heap by position, and how many cells they have. Contracts see it as the heap.
#[derive(Drop)]
pub struct ObjectList {
    objects: Vec<Object<ObjRef>>,
    cells: u32,
}

impl Model for ObjectList {
    ghost use Rattle.std.specs.Prelude.{◌≡◌, ◌<◌, ◌^◌};
    ghost use Rattle.std.specs.Coded.{codes};
    ghost use Rattle.core_tree.specs.contracts.ty.Ty as ty;
    ghost use Rattle.heap_arena.specs.Heap.{Heap, cell_count};

    ghost Value = { Heap };

    ghost coded = { Prim.hlevel (codes, ty.the_row.coded) };

    ghost view = { λ list. list.objects.items };

    ghost invariant = { λ list. (list.cells ≡ cell_count list.objects.items) × (list.cells < 2 ^ 32) };
}

impl ObjectList {
    pub fn new(alloc: Global) -> ObjectList
        ensures { result ≡ [] }
    {
        ObjectList {
            objects: Vec::new(alloc),
            cells: 0,
        }
    }

    /// How many objects there are.
    #[tactic(auto, using(crate::proofs::Cells::length_le_cells))]
    pub fn len(&self) -> u32
        ensures { result ≡ length self.now }
    {
        self.objects.len() as u32
    }

    /// How many cells they have, their own ones included.
    pub fn cells(&self) -> u32
        ensures { result ≡ cell_count self.now }
    {
        self.cells
    }

    // The object at a position.
    #[tactic(auto, using(crate::proofs::Cells::size_of_object))]
    fn object(&self, position: u32) -> &Object<ObjRef>
        requires { position < length self.now }
        ensures object { slice_get self.now position ≡ Some result.now }
        ensures few { length result.now.cells < 2 ^ 32 }
    {
        &self.objects[position as usize]
    }

    /// The kind of the object at a position.
    pub fn kind_of(&self, position: u32) -> &Kind
        requires { position < length self.now }
        ensures { option_map (λ object. object.kind) (slice_get self.now position) ≡ Some result.now }
    {
        &self.object(position).kind
    }

    /// How many fields or elements the object at a position has.
    pub fn size_of(&self, position: u32) -> u32
        requires { position < length self.now }
        ensures { option_map (λ object. length object.cells) (slice_get self.now position) ≡ Some result }
    {
        self.object(position).cells.len() as u32
    }

    /// The value at a place of the object at a position.
    pub fn read(&self, position: u32, at: u32) -> Result<Cell<ObjRef>, OutOfMemory>
        requires { IsSome (cell_at self.now position at) }
        ensures value { IfOk result (λ v. cell_at self.now position at ≡ Some v) }
        ensures memory { IsErr result → (text : List ℕ) × (cell_at self.now position at ≡ Some (value.Text text)) }
    {
        let object = &self.objects[position as usize];
        object.cells.as_slice()[at as usize].copy()
    }

    /// Writes a value at a place of the object at a position.
    pub fn write(&mut self, position: u32, at: u32, v: Cell<ObjRef>)
        requires { IsSome (cell_at self.old position at) }
        ensures { self.new ≡ written self.old position at v }
    {
        self.objects[position as usize].cells.set(at as usize, v);
    }

    /// Appends an object. Without memory the list is unchanged.
    pub fn push(&mut self, kind: Kind, cells: Items<Cell<ObjRef>>) -> Result<(), AllocError>
        requires { cell_count self.old + (1 + length cells) < 2 ^ 32 }
        ensures ok { OnOk result (self.new ≡ self.old ++ record { kind = kind; cells = cells } ∷ []) }
        ensures err { OnErr result (self.new ≡ self.old) }
    {
        let size = cells.len() as u32;
        self.objects.push(Object { kind, cells })?;
        self.cells += 1 + size;
        Ok(())
    }

    /// The same objects once more.
    pub fn copy(&self, alloc: Global) -> Result<ObjectList, OutOfMemory>
        requires { cell_count self.now < 2 ^ 32 }
        ensures { IfOk result (λ list. list ≡ self.now) }
    {
        let mut copy = ObjectList::new(alloc);
        for object in &self.objects {
            let kind = object.kind.copy(alloc)?;
            let cells = copy_cells(alloc, object.cells.as_slice())?;
            copy.push(kind, cells)?;
        }
        Ok(copy)
    }
}

// The same values once more.
fn copy_cells(alloc: Global, cells: &[Cell<ObjRef>]) -> Result<Items<Cell<ObjRef>>, OutOfMemory>
    ensures { IfOk result (λ copy. copy ≡ cells.now) }
{
    let mut copy = Vec::with_capacity(alloc, cells.len())?;
    for cell in cells {
        copy.push(cell.copy()?)?;
    }
    Ok(Items::from_vec(copy))
}
