ghost use Rattle.std.specs.Prelude.{◌≡◌, ◌&&◌, ℕ, List, Some, IfOk, IsErr, OnErr, IsTrue, false};
ghost use Rattle.heap_arena.specs.declared.cell.Cell.TheVariants as value;
ghost use Rattle.heap_arena.specs.Heap.{cell_at};
ghost use Rattle.heap_arena.specs.State.{after_write};
ghost use Rattle.evaluation.specs.Objects.{has_cell, is_there};

use crate::position::{with_object, with_position};
use core_tree::OutOfMemory;
use heap_arena::{Cell, Store};

/// The value at a place of the object at a position; none where there is no such object or place. Only a text takes
/// memory.
pub fn cell<S: Store>(store: &S, o: u32, at: u32) -> Result<Option<Cell<u32>>, OutOfMemory>
    ensures value { IfOk result (λ found. found ≡ cell_at (S.state store.now).now o at) }
    ensures memory { IsErr result → (text : List ℕ) × (cell_at (S.state store.now).now o at ≡ Some (value.Text text)) }
{
    if !is_cell(store, o, at) {
        return Ok(None);
    }
    let v = store.read(store.at(o), at)?;
    Ok(Some(with_position(store, v)))
}

/// Writes a value at a place of the object at a position, where there is such an object and place and what the value
/// refers to is there; else it answers false. Where it answers false, and without memory, the store is unchanged.
pub fn write<S: Store>(store: &mut S, o: u32, at: u32, v: Cell<u32>) -> Result<bool, OutOfMemory>
    ensures done { IfOk result (λ done.
        done ≡ (has_cell (S.state store.old).now o at && is_there (S.state store.old).now v)) }
    ensures written { IfOk result (λ done. IsTrue done → S.state store.new ≡ after_write (S.state store.old) o at v) }
    ensures refused { IfOk result (λ done. done ≡ false → S.state store.new ≡ S.state store.old) }
    ensures unchanged { OnErr result (S.state store.new ≡ S.state store.old) }
{
    if !is_cell(store, o, at) || !is_there(store, &v) {
        return Ok(false);
    }
    let object = store.at(o);
    let v = with_object(store, v);
    store.write(object, at, v)?;
    Ok(true)
}

// Whether there is such an object and place.
fn is_cell<S: Store>(store: &S, o: u32, at: u32) -> bool
    ensures { result ≡ has_cell (S.state store.now).now o at }
{
    o < store.len() && at < store.size_of(store.at(o))
}

// Whether what a value refers to is there.
fn is_there<S: Store>(store: &S, v: &Cell<u32>) -> bool
    ensures { result ≡ is_there (S.state store.now).now v.now }
{
    match v {
        Cell::Ref(position) => *position < store.len(),
        _ => true,
    }
}
