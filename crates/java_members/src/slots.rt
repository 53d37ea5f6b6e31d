//! The types of the locals of a body after its parameters.

ghost use Rattle.std.specs.Prelude.{◌≡◌, IfErr, IfOk, drop};

use core_tree::Ty;
use java_names::Scope;
use java_syntax::CheckError;
use sqlite_items::Items;
use std::alloc::Global;

// A copy of a type.
fn copy_type(alloc: Global, ty: &Ty) -> Result<Ty, CheckError>
    ensures copy { IfOk result (λ copy. copy ≡ ty.now) }
    ensures memory { IfErr result (λ e. e ≡ CheckError.OutOfMemory) }
{
    match ty.copy(alloc) {
        Ok(copy) => Ok(copy),
        Err(_) => Err(CheckError::OutOfMemory),
    }
}

// The items from number `start` on; none where there are fewer.
#[tactic(auto, using(crate::proofs::ListLemmas::none_left))]
fn items_from<T>(items: &[T], start: usize) -> &[T]
    ensures { result.now ≡ drop start items.now }
{
    if start > items.len() {
        return &[];
    }
    items.split_at(start).1
}

/// The types of the locals that were declared in a body, in order, but for its first `params`, which are its
/// parameters.
///
/// # Errors
/// `OutOfMemory` where memory runs out.
pub fn other_locals(alloc: Global, scope: &Scope, params: usize) -> Result<Items<Ty>, CheckError>
    ensures locals { IfOk result (λ types. types ≡ drop params scope.now.slots) }
    ensures memory { IfErr result (λ e. e ≡ CheckError.OutOfMemory) }
{
    let mut types = Items::new(alloc);
    for slot in items_from(scope.slots.as_slice(), params) {
        types.push(copy_type(alloc, slot.get())?)?;
    }
    Ok(types)
}
