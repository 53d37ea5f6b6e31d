//! Locals, declared and gone again (JLS 6.3, 14.4).

ghost use Rattle.std.specs.Prelude.{◌≡◌, IfOk, OnOk, take};
ghost use Rattle.java_names.specs.Types as types;
ghost use Rattle.throw_check.specs.Statements.{with_local};
ghost use Rattle.throw_check.specs.Walks as spec;

use core_tree::{Shared, Ty};
use java_names::{Mark, Scope, Symbols, declared_type, exception_type};
use java_syntax::{Ident, LocalTree};
use sqlite_items::Items;
use std::alloc::{AllocError, Global};

/// Declares a local of this type, unless a local in scope has its name. `AllocError` where memory runs out, or no
/// number; then the scope serves no more.
pub fn declare(scope: &mut Scope, name: &Ident, ty: Shared<Ty>) -> Result<(), AllocError>
    ensures { OnOk result (scope.new ≡ with_local scope.old name.now ty) }
{
    if scope.local(&name.name).is_some() {
        return Ok(());
    }
    let copy = name.name.clone()?;
    scope.declare(copy, ty)?;
    Ok(())
}

/// Declares the local of a declaration. `AllocError` as `declare`.
pub fn declare_local(
    alloc: Global,
    symbols: &Symbols,
    scope: &mut Scope,
    local: &LocalTree,
) -> Result<(), AllocError>
    ensures { OnOk result (scope.new ≡ with_local scope.old local.now.name (types.declared_type symbols.now.names local.now.ty)) }
{
    let ty = declared_type(alloc, &symbols.names, &local.ty)?;
    declare(scope, &local.name, ty)
}

/// Declares the local of a catch clause for this class. `AllocError` as `declare`.
pub fn declare_caught(
    alloc: Global,
    symbols: &Symbols,
    scope: &mut Scope,
    name: &Ident,
    class: &Ident,
) -> Result<(), AllocError>
    ensures { OnOk result (scope.new ≡ with_local scope.old name.now (types.exception_type symbols.now.names class.now.name)) }
{
    let ty = exception_type(alloc, &symbols.names, &class.name)?;
    declare(scope, name, ty)
}

/// Where a block begins, to come back to after it.
#[derive(Clone, Copy, Drop)]
pub struct BlockEntry {
    /// The locals in scope there.
    pub mark: Mark,
    /// How many locals were declared before.
    pub slots: usize,
}

/// The entry of a block that begins here.
pub fn here(scope: &Scope) -> BlockEntry
    ensures { result ≡ spec.entry_of scope.now }
{
    BlockEntry {
        mark: scope.mark(),
        slots: scope.slots.len(),
    }
}

// Keeps the first `count` of the types.
#[tactic(auto, using(crate::proofs::ScopeLemmas::popping))]
fn truncate(slots: &mut Items<Shared<Ty>>, count: usize)
    ensures { slots.new ≡ take count slots.old }
{
    while slots.len() > count {
        slots.pop();
    }
}

/// Leaves a block that began there: its locals are gone. It takes time in proportion to their number.
#[tactic(auto, unfolding(crate::specs::Walks::back_to, java_names::specs::Scope::back_at))]
pub fn leave(scope: &mut Scope, entry: BlockEntry)
    ensures { scope.new ≡ spec.back_to entry scope.old }
{
    scope.back(entry.mark);
    truncate(&mut scope.slots, entry.slots);
}
