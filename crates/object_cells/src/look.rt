ghost use Rattle.std.specs.Prelude.{◌≡◌};
ghost use Rattle.std.specs.Option.{option_copied};
ghost use Rattle.heap_arena.specs.Heap.{class_at, kind_at};
ghost use Rattle.evaluation.specs.Objects.{elements_at, elements_count};

use core_tree::Ty;
use heap_arena::{Kind, Store};

/// The kind of the object at a position; none where there is no such object.
pub fn kind_at<S: Store>(store: &S, o: u32) -> Option<&Kind>
    ensures { option_copied result ≡ kind_at (S.state store.now).now o }
{
    if o < store.len() {
        Some(store.kind_of(store.at(o)))
    } else {
        None
    }
}

/// The class of the instance at a position; none where there is no such object, or it is an array.
pub fn class_at<S: Store>(store: &S, o: u32) -> Option<u32>
    ensures { result ≡ class_at (S.state store.now).now o }
{
    match kind_at(store, o)? {
        Kind::Instance(class) => Some(*class),
        Kind::Array(_) => None,
    }
}

/// The type of the elements of the array at a position; none where there is no such object, or it is an instance.
pub fn elements_at<S: Store>(store: &S, o: u32) -> Option<&Ty>
    ensures { option_copied result ≡ elements_at (S.state store.now).now o }
{
    match kind_at(store, o)? {
        Kind::Instance(_) => None,
        Kind::Array(elements) => Some(elements),
    }
}

/// How many elements the array at a position has; none where there is no such object, or it is an instance.
pub fn elements_count<S: Store>(store: &S, o: u32) -> Option<u32>
    ensures { result ≡ elements_count (S.state store.now).now o }
{
    match kind_at(store, o)? {
        Kind::Instance(_) => None,
        Kind::Array(_) => Some(store.size_of(store.at(o))),
    }
}
