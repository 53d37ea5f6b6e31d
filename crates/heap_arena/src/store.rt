ghost use Rattle.std.specs.Prelude.{◌≡◌, ◌≢◌, ◌<◌, ◌+◌, ◌↔◌, ℕ, List, [], length, Some, option_map, slice_get, IsSome, IsErr, IfOk, OnOk, OnErr, IsErrOf, IsTrue};
ghost use Rattle.heap_arena.specs.declared.error.MakeError.TheVariants as error;
ghost use Rattle.heap_arena.specs.declared.cell.Cell.TheVariants as value;
ghost use Rattle.heap_arena.specs.Heap.{cell_at, cell_count, kind_at, most_cells, FitsKind, RefersWithin, shown};
ghost use Rattle.heap_arena.specs.Marks.{last_mark, IsSound};
ghost use Rattle.heap_arena.specs.State.{StoreState, after_keep, after_make, after_mark, after_undo, after_write, KeepsPositions};

use crate::{Cell, Kind, MakeError};
use core_tree::OutOfMemory;

/// A heap with marks. A position counts from 0, and so does a place among the cells of an object.
pub trait Store {
    /// An object of the store.
    type Obj: Copy + Eq;

    /// The heap of now, the heaps that are marked, and the types of the fields of each class.
    ghost state: { Self → StoreState };

    /// The position of an object. What isn't there has no position in the heap.
    ghost position_of: { Self → Self.Obj → ℕ };

    /// Makes an object with the default values of its kind, after all others. After an error the store is unchanged.
    fn make(&mut self, kind: Kind, cells: u32) -> Result<Self::Obj, MakeError>
        requires kind { FitsKind (state self.old).field_types kind cells }
        ensures made { OnOk result (state self.new ≡ after_make (state self.old) kind cells) }
        ensures object { IfOk result (λ o. position_of self.new o ≡ length (state self.old).now) }
        ensures full { IsErrOf result error.Full ↔ (most_cells < cell_count (state self.old).now + (1 + cells)) }
        ensures unchanged { OnErr result (state self.new ≡ state self.old) }
        ensures positions { KeepsPositions
            (position_of self.old) (position_of self.new) (state self.old) (state self.new) };

    /// The value at a place of an object. Only a text takes memory.
    fn read(&self, o: Self::Obj, at: u32) -> Result<Cell<Self::Obj>, OutOfMemory>
        requires cell { IsSome (cell_at (state self.now).now (position_of self.now o) at) }
        ensures value { IfOk result (λ v.
            cell_at (state self.now).now (position_of self.now o) at ≡ Some (shown (position_of self.now) v)) }
        ensures memory { IsErr result → (text : List ℕ) ×
            (cell_at (state self.now).now (position_of self.now o) at ≡ Some (value.Text text)) };

    /// Writes a value at a place of an object, and nothing else. Without memory the store is unchanged.
    fn write(&mut self, o: Self::Obj, at: u32, v: Cell<Self::Obj>) -> Result<(), OutOfMemory>
        requires cell { IsSome (cell_at (state self.old).now (position_of self.old o) at) }
        requires value { RefersWithin (length (state self.old).now) (shown (position_of self.old) v) }
        ensures written { OnOk result (state self.new ≡
            after_write (state self.old) (position_of self.old o) at (shown (position_of self.old) v)) }
        ensures unchanged { OnErr result (state self.new ≡ state self.old) }
        ensures positions { KeepsPositions
            (position_of self.old) (position_of self.new) (state self.old) (state self.new) };

    /// How many cells of its own an object has: its fields or elements.
    fn size_of(&self, o: Self::Obj) -> u32
        requires there { position_of self.now o < length (state self.now).now }
        ensures { option_map (λ object. length object.cells)
            (slice_get (state self.now).now (position_of self.now o)) ≡ Some result };

    /// The kind of an object.
    fn kind_of(&self, o: Self::Obj) -> &Kind
        requires there { position_of self.now o < length (state self.now).now }
        ensures { kind_at (state self.now).now (position_of self.now o) ≡ Some result.now };

    /// How many objects there are.
    fn len(&self) -> u32
        ensures { result ≡ length (state self.now).now };

    /// How many cells the heap has: one for each object, and one for each field or element.
    fn cells(&self) -> u32
        ensures { result ≡ cell_count (state self.now).now };

    /// The object at a position.
    fn at(&self, position: u32) -> Self::Obj
        requires there { position < length (state self.now).now }
        ensures { position_of self.now result ≡ position };

    /// The position of an object.
    fn position(&self, o: Self::Obj) -> u32
        requires there { position_of self.now o < length (state self.now).now }
        ensures { result ≡ position_of self.now o };

    /// Marks the heap of now. Without memory the store is unchanged.
    fn mark(&mut self) -> Result<(), OutOfMemory>
        ensures marked { OnOk result (state self.new ≡ after_mark (state self.old)) }
        ensures unchanged { OnErr result (state self.new ≡ state self.old) }
        ensures positions { KeepsPositions
            (position_of self.old) (position_of self.new) (state self.old) (state self.new) };

    /// Sets the heap back to the newest mark, and takes that mark off.
    fn undo(&mut self)
        requires marked { (state self.old).marks ≢ [] }
        ensures undone { state self.new ≡ after_undo (state self.old) }
        ensures positions { KeepsPositions
            (position_of self.old) (position_of self.new) (state self.old) (state self.new) };

    /// Takes the newest mark off, and changes nothing else.
    fn keep(&mut self)
        requires marked { (state self.old).marks ≢ [] }
        ensures kept { state self.new ≡ after_keep (state self.old) }
        ensures positions { KeepsPositions
            (position_of self.old) (position_of self.new) (state self.old) (state self.new) };

    /// The value that a place of the object at a position had at the newest mark. Only a text takes memory.
    fn old_read(&self, position: u32, at: u32) -> Result<Cell<Self::Obj>, OutOfMemory>
        requires marked { (state self.now).marks ≢ [] }
        requires cell { IsSome (cell_at (last_mark (state self.now).marks) position at) }
        ensures value { IfOk result (λ v.
            cell_at (last_mark (state self.now).marks) position at ≡ Some (shown (position_of self.now) v)) }
        ensures memory { IsErr result → (text : List ℕ) ×
            (cell_at (last_mark (state self.now).marks) position at ≡ Some (value.Text text)) };

    /// How many objects there were at the newest mark.
    fn old_len(&self) -> u32
        requires marked { (state self.now).marks ≢ [] }
        ensures { result ≡ length (last_mark (state self.now).marks) };

    /// Each mark begins the next newer one, and the newest begins the heap of now: an object keeps its kind and its
    /// number of cells. Each reference in one of these heaps is to an object of that heap, and each has at most
    /// 16,777,216 cells.
    ghost sound: { (s : Self) → IsSound (state s).now (state s).marks };

    /// Two objects that are there have two positions.
    ghost distinct: { (s : Self) (a b : Self.Obj) →
        position_of s a < length (state s).now → position_of s a ≡ position_of s b → a ≡ b };

    /// `==` says whether two objects are one.
    ghost same: { (a b : Self.Obj) → IsTrue (Self.Obj.eq a b) ↔ (a ≡ b) };
}
