//! The selectors of a program: what its instance methods are called by.

ghost use Rattle.std.specs.Prelude.{◌≡◌, IfOk, OnOk, fold};
ghost use Rattle.java_names.specs.Selectors as spec;

use crate::mods::is_static;
use crate::numbering::Numbering;
use crate::symbol::Selector;
use class_table::{ClassRow, MethodRow};
use java_tokens::Name;
use std::alloc::{AllocError, Global};

/// `getMessage` without parameters.
fn message_selector(alloc: Global) -> Result<Selector, AllocError>
    ensures { IfOk result (λ s. s ≡ spec.message_selector) }
{
    let characters = ['g', 'e', 't', 'M', 'e', 's', 's', 'a', 'g', 'e'];
    Ok(Selector {
        name: Name::new(Vec::from_slice(alloc, &characters)?),
        arity: 0,
    })
}

impl Selector {
    /// What methods of this name and number of parameters are called by. `AllocError` where memory runs out.
    pub fn new(name: &Name, arity: usize) -> Result<Selector, AllocError>
        ensures { IfOk result (λ s. s ≡ record { name = name.now; arity = arity }) }
    {
        Ok(Selector {
            name: name.clone()?,
            arity,
        })
    }
}

/// What a method is called by.
pub fn selector_of(method: &MethodRow) -> Result<Selector, AllocError>
    ensures { IfOk result (λ s. s ≡ spec.selector_of method.now) }
{
    Selector::new(&method.name, method.params.len())
}

/// Adds what a method is called by, where it is an instance method and no method before it is called so.
fn add(selectors: &mut Numbering<Selector>, method: &MethodRow) -> Result<(), AllocError>
    ensures { OnOk result (selectors.new ≡ spec.with_selector selectors.old method.now) }
{
    if is_static(&method.mods) {
        return Ok(());
    }
    let selector = selector_of(method)?;
    if selectors.contains(&selector) {
        return Ok(());
    }
    selectors.push(selector, selector_of(method)?)
}

/// Adds what some methods are called by.
fn add_all(selectors: &mut Numbering<Selector>, methods: &[MethodRow]) -> Result<(), AllocError>
    ensures { OnOk result (selectors.new ≡ fold spec.with_selector selectors.old methods.now) }
{
    for method in methods {
        add(selectors, method)?;
    }
    Ok(())
}

/// The selectors of a program by their numbers. `AllocError` where memory runs out, or no number.
pub fn selectors(alloc: Global, rows: &[ClassRow]) -> Result<Numbering<Selector>, AllocError>
    ensures { IfOk result (λ selectors. selectors ≡ spec.selectors_of rows.now) }
{
    let mut selectors = Numbering::new(alloc);
    selectors.push(message_selector(alloc)?, message_selector(alloc)?)?;
    for row in rows {
        add_all(&mut selectors, row.methods.get().as_slice())?;
    }
    Ok(selectors)
}

/// The number of a method's selector; `None` for a static method.
pub fn selector_number(
    selectors: &Numbering<Selector>,
    method: &MethodRow,
) -> Result<Option<u32>, AllocError>
    ensures { IfOk result (λ number. number ≡ spec.selector_number selectors.now method.now) }
{
    if is_static(&method.mods) {
        return Ok(None);
    }
    Ok(selectors.number(&selector_of(method)?))
}
