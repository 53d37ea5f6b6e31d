//! The methods that a class declares itself.

ghost use Rattle.std.specs.Prelude.{◌≡◌, ◌++◌, IfOk, map};
ghost use Rattle.std.specs.List.{filter_map};
ghost use Rattle.java_names.specs.Symbols as spec;

use crate::mods::{is_private, is_static};
use crate::numbering::Numbering;
use crate::selectors::{selector_number, selector_of};
use crate::symbol::{MethodSymbol, Methods, Selector};
use crate::types::{answer_type, declared_types};
use class_table::MethodRow;
use java_tokens::Name;
use sqlite_items::Items;
use std::alloc::{AllocError, Global};

/// The numbers of the known classes after `throws`.
pub fn thrown(
    alloc: Global,
    names: &Numbering<Name>,
    throws: &[Name],
) -> Result<Items<u32>, AllocError>
    ensures { IfOk result (λ classes. classes ≡ spec.thrown names.now throws.now) }
{
    let mut classes = Items::new(alloc);
    for name in throws {
        if let Some(class) = names.number(name) {
            classes.push(class)?;
        }
    }
    Ok(classes)
}

/// The number after this one; `None` where there are no numbers. `AllocError` where there is no further number.
pub fn following(number: Option<u32>) -> Result<Option<u32>, AllocError>
    ensures { IfOk result (λ next. next ≡ spec.following number) }
{
    match number {
        Some(u32::MAX) => Err(AllocError),
        Some(number) => Ok(Some(number + 1)),
        None => Ok(None),
    }
}

/// The symbol of a method.
fn method_symbol(
    alloc: Global,
    names: &Numbering<Name>,
    selectors: &Numbering<Selector>,
    owner: u32,
    number: Option<u32>,
    method: &MethodRow,
) -> Result<MethodSymbol, AllocError>
    ensures { IfOk result (λ symbol. symbol ≡ spec.method_symbol names.now selectors.now owner number method.now) }
{
    Ok(MethodSymbol {
        number,
        owner,
        name: method.name.clone()?,
        params: declared_types(alloc, names, method.params.as_slice())?,
        answer: answer_type(alloc, names, &method.answer)?,
        throws: thrown(alloc, names, method.throws.as_slice())?,
        is_static: is_static(&method.mods),
        is_private: is_private(&method.mods),
        selector: selector_number(selectors, method)?,
        at: method.at,
    })
}

/// What methods are called by, in order.
fn selectors_in(alloc: Global, rows: &[MethodRow]) -> Result<Numbering<Selector>, AllocError>
    ensures { IfOk result (λ keys. keys ≡ spec.selectors_in rows.now) }
{
    let mut keys = Numbering::new(alloc);
    for method in rows {
        keys.push(selector_of(method)?, selector_of(method)?)?;
    }
    Ok(keys)
}

/// The names of methods in order.
fn names_in(alloc: Global, rows: &[MethodRow]) -> Result<Numbering<Name>, AllocError>
    ensures { IfOk result (λ keys. keys ≡ spec.method_names rows.now) }
{
    let mut keys = Numbering::new(alloc);
    for method in rows {
        keys.push(method.name.clone()?, method.name.clone()?)?;
    }
    Ok(keys)
}

/// The symbols of methods of class number `owner`, numbered on from `number`.
fn method_symbols(
    alloc: Global,
    names: &Numbering<Name>,
    selectors: &Numbering<Selector>,
    owner: u32,
    number: Option<u32>,
    rows: &[MethodRow],
) -> Result<Items<MethodSymbol>, AllocError>
    ensures { IfOk result (λ symbols. symbols ≡ spec.method_symbols names.now selectors.now owner number rows.now) }
{
    let mut next = number;
    let mut symbols = Items::new(alloc);
    for method in rows {
        symbols.push(method_symbol(alloc, names, selectors, owner, next, method)?)?;
        next = following(next)?;
    }
    Ok(symbols)
}

/// The methods that class number `owner` declares itself, numbered on from `number`. `AllocError` where there is no
/// memory left, or no number.
pub fn methods(
    alloc: Global,
    names: &Numbering<Name>,
    selectors: &Numbering<Selector>,
    owner: u32,
    number: Option<u32>,
    rows: &[MethodRow],
) -> Result<Methods, AllocError>
    ensures { IfOk result (λ methods. methods ≡ spec.methods_of names.now selectors.now owner number rows.now) }
{
    Ok(Methods {
        symbols: method_symbols(alloc, names, selectors, owner, number, rows)?,
        selectors: selectors_in(alloc, rows)?,
        names: names_in(alloc, rows)?,
    })
}
