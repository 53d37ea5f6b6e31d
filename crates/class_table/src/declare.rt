//! What each class declares by itself, and the rules on superclasses and on the names of constructors.

ghost use Rattle.std.specs.Prelude.{◌≡◌, ◌⊎◌, ◌+◌, ◌≤◌, ◌++◌, length, IfOk, IfErr, OnOk};
ghost use Rattle.token_reading.specs.declared.fault.Fault.{Fault};
ghost use Rattle.core_tree.specs.BuiltIn.{first_class};
ghost use Rattle.class_table.specs.Declarations as spec;
ghost use Rattle.class_table.specs.Names.{library_names};
ghost use Rattle.class_table.specs.Faults.{Blames, Clear, InSome, OfRule};
ghost use Rattle.class_table.specs.Rules.{ClassFault, NamedOtherwise, UnknownSuperclass};

use crate::declaration::Declaration;
use crate::keys::Keys;
use crate::members::{fields, makers, methods};
use crate::names::fault;
use core_tree::{FIRST_CLASS, Shared};
use java_syntax::{CheckError, ClassTree, Member};
use java_tokens::Name;
use sqlite_items::Items;
use std::alloc::Global;

/// The number of the superclass of a class.
fn parent(
    names: &Keys<Name>,
    library: &Keys<Name>,
    class: &ClassTree,
) -> Result<Option<u32>, CheckError>
    requires few { length names.now ≤ 1018 }
    requires library { library.now ≡ library_names }
    ensures number { IfOk result (λ parent. parent ≡ spec.parent_number names.now class.now.parent) }
    ensures fault { IfErr result (Blames (OfRule 2 (UnknownSuperclass names.now class.now.parent))) }
    ensures clear { OnOk result (Clear (OfRule 2 (UnknownSuperclass names.now class.now.parent))) }
{
    let Some(ident) = &class.parent else {
        return Ok(Some(0));
    };
    if library.contains(&ident.name) {
        return Err(fault(2, ident.at));
    }
    match names.number(&ident.name) {
        Some(number) => Ok(Some(number as u32)),
        None => Err(fault(2, ident.at)),
    }
}

/// Checks that a constructor has the name of its class.
fn check_member(name: &Name, member: &Member) -> Result<(), CheckError>
    ensures fault { IfErr result (Blames (OfRule 8 (NamedOtherwise name.now member.now))) }
    ensures clear { OnOk result (Clear (OfRule 8 (NamedOtherwise name.now member.now))) }
{
    if let Member::Maker(maker) = member {
        if maker.name.name != *name {
            return Err(fault(8, maker.name.at));
        }
    }
    Ok(())
}

/// Checks that the constructors have the name of their class.
#[tactic(auto, using(crate::proofs::Faults::loops))]
fn check_members(name: &Name, members: &[Member]) -> Result<(), CheckError>
    ensures fault { IfErr result (Blames (InSome members.now (λ _ member. OfRule 8 (NamedOtherwise name.now member)))) }
    ensures clear { OnOk result (Clear (InSome members.now (λ _ member. OfRule 8 (NamedOtherwise name.now member)))) }
{
    for member in members {
        check_member(name, member)?;
    }
    Ok(())
}

/// What class number `number` declares.
fn declaration(
    alloc: Global,
    names: &Keys<Name>,
    library: &Keys<Name>,
    number: u32,
    class: &ClassTree,
) -> Result<Declaration, CheckError>
    requires few { length names.now ≤ 1018 }
    requires library { library.now ≡ library_names }
    ensures value { IfOk result (λ d. d ≡ spec.declaration names.now number class.now) }
    ensures fault { IfErr result (Blames (ClassFault names.now class.now)) }
    ensures clear { OnOk result (Clear (ClassFault names.now class.now)) }
{
    let parent = parent(names, library, class)?;
    check_members(&class.name.name, class.members.as_slice())?;
    let members = class.members.as_slice();
    Ok(Declaration {
        name: class.name.name.clone()?,
        parent,
        fields: fields(alloc, number, members)?,
        methods: Shared::new(alloc, methods(alloc, members)?)?,
        makers: Shared::new(alloc, makers(alloc, members)?)?,
        at: class.name.at,
    })
}

/// What the classes of the program declare: the built-in ones, then those of the file.
#[tactic(auto, using(crate::proofs::Faults::loops))]
pub fn declare(
    alloc: Global,
    built: Items<Declaration>,
    names: &Keys<Name>,
    library: &Keys<Name>,
    classes: &[ClassTree],
) -> Result<Items<Declaration>, CheckError>
    requires few { length names.now ≤ 1018 }
    requires classes { length classes.now ≤ 1000 }
    requires library { library.now ≡ library_names }
    ensures value { IfOk result (λ all. all ≡ built ++ spec.declarations names.now first_class classes.now) }
    ensures fault { IfErr result (Blames (InSome classes.now (λ _. ClassFault names.now))) }
    ensures clear { OnOk result (Clear (InSome classes.now (λ _. ClassFault names.now))) }
{
    let mut all = built;
    let mut number = FIRST_CLASS;
    for class in classes {
        all.push(declaration(alloc, names, library, number, class)?)?;
        number += 1;
    }
    Ok(all)
}
