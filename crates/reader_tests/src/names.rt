//! The look-ups of classes and members, on what one small class declares.

use crate::reading::{name, table_of};
use core_tree::{Shared, Ty};
use java_names::{Meaning, Scope, Selector, Symbols, is_accessible, symbols};
use std::alloc::Global;
use std::test::Fail;

/// The symbols of a class that is token 1 and number 18.
fn one_class(alloc: Global) -> Result<Symbols, Fail> {
    let table = table_of(alloc, "class A { static void main(String[] a) { } }")?;
    Ok(symbols(alloc, &table)?)
}

#[test]
fn classes_are_found(rt: HostRuntime) -> Result<(), Fail> {
    let symbols = one_class(rt.alloc())?;
    assert_eq!(&rt; symbols.class_number(&name(rt.alloc(), "A")?), Some(18));
    assert_eq!(&rt; symbols.line(18), [18, 0].as_slice());
    assert_eq!(&rt; symbols.is_below(18, 0), true);
    let class = symbols.class(18).ok_or("no class")?;
    assert_eq!(&rt; class.at, 1);
    Ok(())
}

#[test]
fn methods_are_found(rt: HostRuntime) -> Result<(), Fail> {
    let symbols = one_class(rt.alloc())?;
    let main = name(rt.alloc(), "main")?;
    let selector = Selector::new(&main, 1)?;
    let method = symbols.method(18, &selector).ok_or("no method")?;
    assert_eq!(&rt; method.number, Some(0));
    assert_eq!(&rt; symbols.has_method(18, &main), true);
    assert_eq!(&rt; is_accessible(0, method.owner, method.is_private), true);
    Ok(())
}

/// A static method has no selector, so `getMessage` is the only one, and it picks nothing.
#[test]
fn constructors_and_selectors_are_found(rt: HostRuntime) -> Result<(), Fail> {
    let symbols = one_class(rt.alloc())?;
    let maker = symbols.maker(18, 0).ok_or("no constructor")?;
    assert_eq!(&rt; maker.number, Some(0));
    assert_eq!(&rt; maker.is_made, true);
    let chosen = symbols.chosen(rt.alloc(), 18)?;
    assert_eq!(&rt; chosen.as_slice(), [None].as_slice());
    Ok(())
}

/// An error of the language inherits the message of `Throwable`.
#[test]
fn fields_are_found(rt: HostRuntime) -> Result<(), Fail> {
    let symbols = one_class(rt.alloc())?;
    let message = name(rt.alloc(), "#message")?;
    let field = symbols.field(4, &message).ok_or("no field")?;
    assert_eq!(&rt; field.owner, 1);
    assert_eq!(&rt; field.place, Some(0));
    Ok(())
}

#[test]
fn names_mean_something(rt: HostRuntime) -> Result<(), Fail> {
    let symbols = one_class(rt.alloc())?;
    let scope = Scope::new(rt.alloc(), 18, false, Shared::new(rt.alloc(), Ty::Void)?);
    let meaning = scope.meaning(&symbols, &name(rt.alloc(), "A")?);
    assert_eq!(&rt; matches!(meaning, Meaning::Class(18)), true);
    Ok(())
}
