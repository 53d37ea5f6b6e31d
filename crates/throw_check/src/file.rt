//! Rule 23 of a file (JLS 11.2.3).

ghost use Rattle.std.specs.Prelude.{◌≡◌, [], flat_map};
ghost use Rattle.core_tree.specs.BuiltIn.{first_class};
ghost use Rattle.throw_check.specs.Files.{class_faults, faults_from, faults_of, made_faults, member_faults};
ghost use Rattle.java_names.specs.Refusals.{Allows};

use crate::bodies::{field, made_maker, maker, method};
use crate::declared::{maker_lists, with_made};
use crate::handlers::Handlers;
use class_table::ClassTable;
use core_tree::FIRST_CLASS;
use java_names::{Numbering, Symbols, following, is_static, symbols};
use java_syntax::{CheckError, ClassTree, FieldTree, FileTree, Member};
use std::alloc::Global;

// A field; the initialiser of a constant calls nothing.
fn instance_field(
    alloc: Global,
    symbols: &Symbols,
    class: u32,
    handlers: &Handlers,
    tree: &FieldTree,
) -> Result<(), CheckError>
    requires { handlers.now.caught ≡ [] }
    ensures { Allows (member_faults symbols.now class handlers.now.declared (Member.Field tree.now)) result }
{
    if is_static(&tree.mods) {
        return Ok(());
    }
    field(alloc, symbols, class, handlers, tree)
}

// A member of class number `class`.
fn member(
    alloc: Global,
    symbols: &Symbols,
    class: u32,
    handlers: &Handlers,
    tree: &Member,
) -> Result<(), CheckError>
    requires { handlers.now.caught ≡ [] }
    ensures { Allows (member_faults symbols.now class handlers.now.declared tree.now) result }
{
    match tree {
        Member::Field(tree) => instance_field(alloc, symbols, class, handlers, tree),
        Member::Method(tree) => method(alloc, symbols, class, tree),
        Member::Maker(tree) => maker(alloc, symbols, class, tree),
        Member::Empty => Ok(()),
    }
}

// The members of class number `class`, whose constructors declare what is handled in initialisers.
fn members(
    alloc: Global,
    symbols: &Symbols,
    class: u32,
    handlers: &Handlers,
    list: &[Member],
) -> Result<(), CheckError>
    requires { handlers.now.caught ≡ [] }
    ensures { Allows (flat_map (member_faults symbols.now class handlers.now.declared) list.now) result }
{
    for tree in list {
        member(alloc, symbols, class, handlers, tree)?;
    }
    Ok(())
}

// The constructor that is made where a class declares none; each of these lists is what a constructor declares.
fn made(
    alloc: Global,
    symbols: &Symbols,
    class: u32,
    lists: &[Numbering<u32>],
    at: u32,
) -> Result<(), CheckError>
    ensures { Allows (made_faults symbols.now class lists.now at) result }
{
    match lists {
        [] => made_maker(alloc, symbols, class, at),
        [_, ..] => Ok(()),
    }
}

// A class with this number.
#[tactic(auto, using(java_names::proofs::RefusalLemmas::parts))]
fn class(alloc: Global, symbols: &Symbols, number: u32, tree: &ClassTree) -> Result<(), CheckError>
    ensures { Allows (class_faults symbols.now number tree.now) result }
{
    let lists = maker_lists(alloc, symbols, tree.members.as_slice())?;
    made(alloc, symbols, number, lists.as_slice(), tree.name.at)?;
    let handlers = Handlers::new(alloc, with_made(alloc, lists)?);
    members(alloc, symbols, number, &handlers, tree.members.as_slice())
}

// Classes, numbered on from the first class of a file.
fn classes(alloc: Global, symbols: &Symbols, list: &[ClassTree]) -> Result<(), CheckError>
    ensures { Allows (faults_from symbols.now first_class list.now) result }
{
    let mut number = FIRST_CLASS;
    for tree in list {
        class(alloc, symbols, number, tree)?;
        number = following(number)?;
    }
    Ok(())
}

/// Checks that a file keeps rule 23: each checked exception that a `throw`, a call or a `new` may throw is caught by a
/// `catch` around it, or declared after `throws` by the method or constructor that it stands in (JLS 11.2.3). One in
/// the initialiser of an instance field is declared by each constructor of the class. `table` is the table of the
/// file's classes, and `tree` the file, in which the rules before are kept; both stay as they are.
///
/// # Errors
/// `Fault` of rule 23 where it is broken: at the word `throw`, at the first token of a call, at `new`, at the word
/// `super` of a call of the superclass's constructor or else at the constructor's name, at the class's name where its
/// constructor is made, and at a field's name. `OutOfMemory` where memory runs out.
pub fn check(alloc: Global, table: &ClassTable, tree: &FileTree) -> Result<(), CheckError>
    ensures { Allows (faults_of table.now tree.now) result }
{
    let symbols = symbols(alloc, table)?;
    check_file(alloc, &symbols, tree)
}

/// The same, given the symbols of the table.
///
/// # Errors
/// Those of `check`.
pub fn check_file(alloc: Global, symbols: &Symbols, tree: &FileTree) -> Result<(), CheckError>
    ensures { Allows (faults_from symbols.now first_class tree.now.classes) result }
{
    classes(alloc, symbols, tree.classes.as_slice())
}
