//! Bodies of methods and constructors, and initialisers of fields (JLS 8.3.2, 8.4.6, 8.8.5, 8.8.7, 11.2.3).

ghost use Rattle.std.specs.Prelude.{◌≡◌, [], ◌∷◌, ◌++◌, flat_map, length};
ghost use Rattle.throw_check.specs.Points.{expr_points};
ghost use Rattle.throw_check.specs.Statements.{body_points};
ghost use Rattle.throw_check.specs.Files as files;
ghost use Rattle.throw_check.specs.Files.{broken_at_points, declared_classes, maker_points, method_points, parent_points, unhandled};
ghost use Rattle.java_names.specs.Refusals.{Allows};
ghost use Rattle.throw_check.specs.Walks.{faults_left};

use crate::calls::check_parent;
use crate::declared::{handlers_of, maker_scope, method_scope};
use crate::expression::{each, optional};
use crate::handlers::Handlers;
use crate::statements::body;
use java_names::{MakerBody, Scope, Symbols, beginning_of};
use java_syntax::{CheckError, Expr, Fault, FieldTree, MakerTree, MethodTree, Stmt};
use std::alloc::Global;

/// Checks that the exceptions in a method of class number `class` are handled.
///
/// # Errors
/// `Fault` of rule 23 where one in its body breaks it. `OutOfMemory` where memory runs out.
#[tactic(auto, using(crate::proofs::LeftLemmas::left_whole))]
pub fn method(
    alloc: Global,
    symbols: &Symbols,
    class: u32,
    tree: &MethodTree,
) -> Result<(), CheckError>
    ensures { Allows (broken_at_points (unhandled symbols.now (declared_classes symbols.now tree.now.throws ∷ []) (method_points symbols.now class tree.now))) result }
{
    let mut handlers = handlers_of(alloc, symbols, tree.throws.as_slice())?;
    let mut scope = method_scope(alloc, symbols, class, tree)?;
    body(
        alloc,
        symbols,
        &mut scope,
        &mut handlers,
        tree.body.as_slice(),
    )
}

// Arguments, the call of the superclass's constructor with them at token `at`, and the statements after it.
#[tactic(auto, using(crate::proofs::LeftLemmas::joins))]
fn begun(
    alloc: Global,
    symbols: &Symbols,
    class: u32,
    scope: &mut Scope,
    handlers: &mut Handlers,
    at: u32,
    given: &[Expr],
    rest: &[Stmt],
) -> Result<(), CheckError>
    ensures { Allows (faults_left symbols.now handlers.old (flat_map (expr_points symbols.now scope.old) given.now ++ (parent_points symbols.now class (length given.now) at ++ body_points symbols.now rest.now scope.old))) result }
{
    each(alloc, symbols, scope, handlers, given)?;
    check_parent(symbols, handlers, class, given.len(), at)?;
    body(alloc, symbols, scope, handlers, rest)
}

/// Checks that the exceptions in a constructor of class number `class` are handled, those of the superclass's
/// constructor that it calls included.
///
/// # Errors
/// `Fault` of rule 23 where one in its body breaks it, or at the word `super` of a call of the superclass's
/// constructor; where there is no such call, at the constructor's name. `OutOfMemory` where memory runs out.
#[tactic(auto, using(crate::proofs::LeftLemmas::left_whole))]
pub fn maker(
    alloc: Global,
    symbols: &Symbols,
    class: u32,
    tree: &MakerTree,
) -> Result<(), CheckError>
    ensures { Allows (broken_at_points (unhandled symbols.now (declared_classes symbols.now tree.now.throws ∷ []) (maker_points symbols.now class tree.now))) result }
{
    let mut handlers = handlers_of(alloc, symbols, tree.throws.as_slice())?;
    let mut scope = maker_scope(alloc, symbols, class, tree)?;
    let MakerBody { at, given, rest } = beginning_of(tree.name.at, tree.body.as_slice());
    begun(
        alloc,
        symbols,
        class,
        &mut scope,
        &mut handlers,
        at,
        given,
        rest,
    )
}

/// Checks that the exceptions are handled of the constructor that is made for class number `class`, whose name is token
/// number `at`: it calls the superclass's constructor without parameters, and declares nothing (JLS 8.8.9).
///
/// # Errors
/// `Fault` of rule 23 at the name, where that constructor declares a checked exception. `OutOfMemory` where there is no
/// memory left.
#[tactic(auto, using(crate::proofs::LeftLemmas::left_whole))]
pub fn made_maker(alloc: Global, symbols: &Symbols, class: u32, at: u32) -> Result<(), CheckError>
    ensures { Allows (files.made_faults symbols.now class [] at) result }
{
    let handlers = handlers_of(alloc, symbols, &[])?;
    check_parent(symbols, &handlers, class, 0, at)
}

/// Checks that the exceptions in the initialiser of an instance field of class number `class` are handled, where each
/// of these lists is what a constructor of the class declares (JLS 8.3.2).
///
/// # Errors
/// `Fault` of rule 23 at the field's name, where one breaks it. `OutOfMemory` where memory runs out.
#[tactic(auto, using(crate::proofs::FieldLemmas::fields))]
pub fn field(
    alloc: Global,
    symbols: &Symbols,
    class: u32,
    handlers: &Handlers,
    tree: &FieldTree,
) -> Result<(), CheckError>
    requires { handlers.now.caught ≡ [] }
    ensures { Allows (files.field_faults symbols.now class handlers.now.declared tree.now) result }
{
    let scope = java_names::maker_scope(alloc, class)?;
    match optional(alloc, symbols, &scope, handlers, &tree.value) {
        Ok(()) => Ok(()),
        Err(CheckError::Fault(_)) => Err(CheckError::Fault(Fault {
            rule: 23,
            at: tree.name.at,
        })),
        Err(CheckError::OutOfMemory) => Err(CheckError::OutOfMemory),
    }
}
