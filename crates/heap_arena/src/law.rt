ghost use Rattle.std.specs.Prelude.{◌≡◌, IsSome, IsTrue, OnOk, false};
ghost use Rattle.heap_arena.specs.Heap.{cell_at};
ghost use Rattle.heap_arena.specs.Changes.{changed, nested_change};
ghost use Rattle.heap_arena.specs.State.{ChangesHeap};

use crate::{Cell, Kind, MakeError, Store};
use core_tree::Ty;

/// Writes a number at a place of an object, and makes an array of that many ints.
pub fn change<S: Store>(
    store: &mut S,
    o: S::Obj,
    at: u32,
    n: i32,
    size: u32,
) -> Result<(), MakeError>
    requires cell { IsSome (cell_at (S.state store.old).now (S.position_of store.old o) at) }
    ensures changed { OnOk result (S.state store.new ≡
        changed (S.state store.old) (S.position_of store.old o) at n size) }
    ensures others { ChangesHeap (S.state store.old) (S.state store.new) }
    ensures cell { IsSome (cell_at (S.state store.new).now (S.position_of store.new o) at) }
    ensures position { S.position_of store.new o ≡ S.position_of store.old o }
{
    store.write(o, at, Cell::Int(n))?;
    store.make(Kind::Array(Ty::Int), size)?;
    Ok(())
}

/// Makes that change over a mark, and undoes it: the store is as before, whatever came in between.
pub fn change_and_undo<S: Store>(
    store: &mut S,
    o: S::Obj,
    at: u32,
    n: i32,
    size: u32,
) -> Result<(), MakeError>
    requires cell { IsSome (cell_at (S.state store.old).now (S.position_of store.old o) at) }
    ensures unchanged { S.state store.new ≡ S.state store.old }
    ensures position { S.position_of store.new o ≡ S.position_of store.old o }
{
    store.mark()?;
    let outcome = change(store, o, at, n, size);
    store.undo();
    outcome
}

/// Makes that change over a mark, and keeps it: the marks are as before.
pub fn change_and_keep<S: Store>(
    store: &mut S,
    o: S::Obj,
    at: u32,
    n: i32,
    size: u32,
) -> Result<(), MakeError>
    requires cell { IsSome (cell_at (S.state store.old).now (S.position_of store.old o) at) }
    ensures changed { OnOk result (S.state store.new ≡
        changed (S.state store.old) (S.position_of store.old o) at n size) }
    ensures others { ChangesHeap (S.state store.old) (S.state store.new) }
    ensures cell { IsSome (cell_at (S.state store.new).now (S.position_of store.new o) at) }
    ensures position { S.position_of store.new o ≡ S.position_of store.old o }
{
    store.mark()?;
    let outcome = change(store, o, at, n, size);
    store.keep();
    outcome
}

/// Makes a change with the number 1 over a mark; over further marks makes and undoes one with 2, and makes and keeps
/// one with 3. Then it keeps the first mark's changes or undoes them. The marks are as before in every case.
pub fn nest<S: Store>(
    store: &mut S,
    o: S::Obj,
    at: u32,
    size: u32,
    keeps: bool,
) -> Result<(), MakeError>
    requires cell { IsSome (cell_at (S.state store.old).now (S.position_of store.old o) at) }
    ensures kept { OnOk result (IsTrue keeps → S.state store.new ≡
        nested_change (S.state store.old) (S.position_of store.old o) at size) }
    ensures undone { keeps ≡ false → S.state store.new ≡ S.state store.old }
    ensures others { ChangesHeap (S.state store.old) (S.state store.new) }
    ensures position { S.position_of store.new o ≡ S.position_of store.old o }
{
    store.mark()?;
    let outcome = change_three_times(store, o, at, size);
    if keeps {
        store.keep();
    } else {
        store.undo();
    }
    outcome
}

// Makes a change with 1, makes and undoes one with 2, and makes and keeps one with 3.
fn change_three_times<S: Store>(
    store: &mut S,
    o: S::Obj,
    at: u32,
    size: u32,
) -> Result<(), MakeError>
    requires cell { IsSome (cell_at (S.state store.old).now (S.position_of store.old o) at) }
    ensures changed { OnOk result (S.state store.new ≡
        nested_change (S.state store.old) (S.position_of store.old o) at size) }
    ensures others { ChangesHeap (S.state store.old) (S.state store.new) }
    ensures cell { IsSome (cell_at (S.state store.new).now (S.position_of store.new o) at) }
    ensures position { S.position_of store.new o ≡ S.position_of store.old o }
{
    change(store, o, at, 1, size)?;
    change_and_undo(store, o, at, 2, size)?;
    change_and_keep(store, o, at, 3, size)
}
