//! What methods and constructors declare (JLS 8.4.6, 8.8.5), and the scopes in which their bodies begin.

ghost use Rattle.std.specs.Prelude.{◌≡◌, [], ◌∷◌, IfOk, OnOk, flat_map};
ghost use Rattle.java_names.specs.Scope as scopes;
ghost use Rattle.throw_check.specs.Files.{declared_classes, maker_classes, or_made, with_params};

use crate::handlers::Handlers;
use crate::locals::declare;
use java_names::{Numbering, Scope, Symbols, declared_type};
use java_syntax::{Ident, MakerTree, Member, MethodTree, ParamTree};
use sqlite_items::Items;
use std::alloc::{AllocError, Global};

// The known classes after `throws`.
fn declared(
    alloc: Global,
    symbols: &Symbols,
    throws: &[Ident],
) -> Result<Numbering<u32>, AllocError>
    ensures { IfOk result (λ classes. classes ≡ declared_classes symbols.now throws.now) }
{
    let mut classes = Numbering::new(alloc);
    for name in throws {
        if let Some(class) = symbols.class_number(&name.name) {
            classes.push(class, class)?;
        }
    }
    Ok(classes)
}

/// What handles an exception at the beginning of a body that declares these. `AllocError` where memory runs out.
pub fn handlers_of(
    alloc: Global,
    symbols: &Symbols,
    throws: &[Ident],
) -> Result<Handlers, AllocError>
    ensures { IfOk result (λ h. h ≡ record { declared = declared_classes symbols.now throws.now ∷ []; caught = [] }) }
{
    let classes = declared(alloc, symbols, throws)?;
    let mut lists = Items::new(alloc);
    lists.push(classes)?;
    Ok(Handlers::new(alloc, lists))
}

/// What each constructor declares among these members. `AllocError` where memory runs out.
pub fn maker_lists(
    alloc: Global,
    symbols: &Symbols,
    list: &[Member],
) -> Result<Items<Numbering<u32>>, AllocError>
    ensures { IfOk result (λ lists. lists ≡ flat_map (maker_classes symbols.now) list.now) }
{
    let mut lists = Items::new(alloc);
    for member in list {
        if let Member::Maker(tree) = member {
            lists.push(declared(alloc, symbols, tree.throws.as_slice())?)?;
        }
    }
    Ok(lists)
}

/// What each constructor of a class declares, with the constructor that is made for a class without one, which declares
/// nothing (JLS 8.8.9). `AllocError` where memory runs out.
pub fn with_made(
    alloc: Global,
    lists: Items<Numbering<u32>>,
) -> Result<Items<Numbering<u32>>, AllocError>
    ensures { IfOk result (λ all. all ≡ or_made lists) }
{
    let mut lists = lists;
    if lists.is_empty() {
        lists.push(Numbering::new(alloc))?;
    }
    Ok(lists)
}

// Declares parameters.
fn declare_params(
    alloc: Global,
    symbols: &Symbols,
    scope: &mut Scope,
    params: &[ParamTree],
) -> Result<(), AllocError>
    ensures { OnOk result (scope.new ≡ with_params symbols.now params.now scope.old) }
{
    for param in params {
        let ty = declared_type(alloc, &symbols.names, &param.ty)?;
        declare(scope, &param.name, ty)?;
    }
    Ok(())
}

/// The scope of a method's body, with its parameters. `AllocError` where memory runs out.
pub fn method_scope(
    alloc: Global,
    symbols: &Symbols,
    class: u32,
    tree: &MethodTree,
) -> Result<Scope, AllocError>
    ensures { IfOk result (λ scope. scope ≡ with_params symbols.now tree.now.params (scopes.method_scope symbols.now class tree.now)) }
{
    let mut scope = java_names::method_scope(alloc, symbols, class, tree)?;
    declare_params(alloc, symbols, &mut scope, tree.params.as_slice())?;
    Ok(scope)
}

/// The scope of a constructor's body, with its parameters. `AllocError` where memory runs out.
pub fn maker_scope(
    alloc: Global,
    symbols: &Symbols,
    class: u32,
    tree: &MakerTree,
) -> Result<Scope, AllocError>
    ensures { IfOk result (λ scope. scope ≡ with_params symbols.now tree.now.params (scopes.maker_scope class)) }
{
    let mut scope = java_names::maker_scope(alloc, class)?;
    declare_params(alloc, symbols, &mut scope, tree.params.as_slice())?;
    Ok(scope)
}
