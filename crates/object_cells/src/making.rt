ghost use Rattle.std.specs.Prelude.{◌≡◌, ◌+◌, ◌<◌, ◌↔◌, length, IfOk, OnOk, OnErr, IsErrOf};
ghost use Rattle.heap_arena.specs.declared.error.MakeError.TheVariants as error;
ghost use Rattle.heap_arena.specs.Heap.{cell_count, most_cells, FitsKind};
ghost use Rattle.heap_arena.specs.State.{after_make};

use heap_arena::{Kind, MakeError, Store};

/// Makes an object with the default values of its kind, after all others, and gives its position. After an error the
/// store is unchanged; `Full` comes exactly where the heap would have more than 16,777,216 cells.
pub fn make<S: Store>(store: &mut S, kind: Kind, cells: u32) -> Result<u32, MakeError>
    requires { FitsKind (S.state store.old).field_types kind cells }
    ensures made { OnOk result (S.state store.new ≡ after_make (S.state store.old) kind cells) }
    ensures position { IfOk result (λ position. position ≡ length (S.state store.old).now) }
    ensures full { IsErrOf result error.Full ↔ (most_cells < cell_count (S.state store.old).now + (1 + cells)) }
    ensures unchanged { OnErr result (S.state store.new ≡ S.state store.old) }
{
    let position = store.len();
    store.make(kind, cells)?;
    Ok(position)
}
