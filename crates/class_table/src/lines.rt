//! The line of superclasses of each class.

ghost use Rattle.std.specs.Prelude.{◌≡◌, ◌⊎◌, ◌+◌, ◌≤◌, ◌<◌, ℕ, length, map, None, Some, Option, IfOk, IfErr, OnOk};
ghost use Rattle.class_table.specs.Ancestors as spec;
ghost use Rattle.class_table.specs.Ancestors.{up};
ghost use Rattle.class_table.specs.Faults.{Blames, Clear, InSome, OfRule};
ghost use Rattle.class_table.specs.Lines.{IsWalk, lines_of};
ghost use Rattle.class_table.specs.Rules.{OwnAncestor};

use crate::declaration::Declaration;
use crate::names::fault;
use java_syntax::CheckError;
use sqlite_items::{Items, at};
use std::alloc::{AllocError, Global};

/// Where the way up from a class leads.
#[derive(Drop)]
pub enum Walk {
    /// To the top: the classes on it.
    Top(Items<u32>),
    /// Round and round: a class that is above itself.
    Cycle(u32),
}

/// The superclasses of the classes by their numbers.
fn parents(alloc: Global, declared: &[Declaration]) -> Result<Items<Option<u32>>, AllocError>
    ensures { IfOk result (λ parents. parents ≡ spec.parents_of declared.now) }
{
    let mut parents = Items::new(alloc);
    for class in declared {
        parents.push(class.parent)?;
    }
    Ok(parents)
}

/// The number of the superclass of a class.
fn parent(parents: &[Option<u32>], class: u32) -> Option<u32>
    ensures { result ≡ spec.parent_in parents.now class }
{
    match parents.get(class as usize) {
        Some(parent) => *parent,
        None => None,
    }
}

/// Walks up from a class.
fn walk_up(alloc: Global, parents: &[Option<u32>], class: u32) -> Result<Walk, AllocError>
    ensures { IfOk result (IsWalk parents.now class) }
{
    let mut line = Items::new(alloc);
    let mut next = Some(class);
    for _ in 0..parents.len() {
        let Some(here) = next else {
            return Ok(Walk::Top(line));
        };
        line.push(here)?;
        next = parent(parents, here);
    }
    match next {
        Some(here) => Ok(Walk::Cycle(here)),
        None => Ok(Walk::Top(line)),
    }
}

/// The line of a class.
fn line(
    alloc: Global,
    declared: &[Declaration],
    parents: &[Option<u32>],
    class: u32,
) -> Result<Items<u32>, CheckError>
    requires parents { parents.now ≡ spec.parents_of declared.now }
    requires known { spec.IsKnown parents.now }
    requires within { class < length declared.now }
    ensures line { IfOk result (λ line. line ≡ spec.line_of parents.now class) }
    ensures ends { OnOk result (up parents.now (length parents.now) class ≡ None) }
    ensures fault { IfErr result (Blames (InSome declared.now (λ number d. OfRule 3 (OwnAncestor declared.now number d)))) }
{
    match walk_up(alloc, parents, class)? {
        Walk::Top(line) => Ok(line),
        Walk::Cycle(on_it) => match at(declared, on_it as usize) {
            Some(found) => Err(fault(3, found.at)),
            None => unreachable!(),
        },
    }
}

/// The lines of the classes by their numbers.
pub fn lines(alloc: Global, declared: &[Declaration]) -> Result<Items<Items<u32>>, CheckError>
    requires few { length declared.now ≤ 1018 }
    requires known { spec.IsKnown (spec.parents_of declared.now) }
    ensures lines { IfOk result (λ lines. lines ≡ lines_of declared.now) }
    ensures ends { OnOk result (spec.AllEnd (spec.parents_of declared.now)) }
    ensures fault { IfErr result (Blames (InSome declared.now (λ number d. OfRule 3 (OwnAncestor declared.now number d)))) }
    ensures clear { OnOk result (Clear (InSome declared.now (λ number d. OfRule 3 (OwnAncestor declared.now number d)))) }
{
    let parents = parents(alloc, declared)?;
    let mut lines = Items::new(alloc);
    let mut class = 0u32;
    for _ in declared {
        lines.push(line(alloc, declared, parents.as_slice(), class)?)?;
        class += 1;
    }
    Ok(lines)
}
