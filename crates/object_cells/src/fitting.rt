ghost use Rattle.std.specs.Prelude.{◌≡◌};
ghost use Rattle.evaluation.specs.Objects.{object_fits};

use crate::kind_at;
use class_order::kind_fits;
use core_tree::{Program, Ty};
use heap_arena::Store;

/// Whether the object at a position may be the value of a variable of the type; false where there is no such object.
pub fn object_fits<S: Store>(program: &Program, store: &S, o: u32, to: &Ty) -> bool
    ensures { result ≡ object_fits program.now (S.state store.now).now o to.now }
{
    match kind_at(store, o) {
        Some(kind) => kind_fits(&program.classes, kind, to),
        None => false,
    }
}
