//! Locals in scope, and the numbers of names.

use crate::reading::name;
use core_tree::{Shared, Ty};
use java_names::{Locals, Numbering, Scope};
use std::test::Fail;

/// A local is gone after its block.
#[test]
fn locals_come_and_go(rt: HostRuntime) -> Result<(), Fail> {
    let mut scope = Scope::new(rt.alloc(), 18, false, Shared::new(rt.alloc(), Ty::Void)?);
    let x = name(rt.alloc(), "x")?;
    let mark = scope.mark();
    let first = scope.declare(name(rt.alloc(), "x")?, Shared::new(rt.alloc(), Ty::Int)?)?;
    assert_eq!(&rt; scope.local(&x), Some(first));
    scope.back(mark);
    assert_eq!(&rt; scope.local(&x), None);
    Ok(())
}

#[test]
fn locals_are_numbered(rt: HostRuntime) -> Result<(), Fail> {
    let mut locals = Locals::new(rt.alloc());
    locals.push(name(rt.alloc(), "x")?, 3)?;
    assert_eq!(&rt; locals.len(), 1);
    assert_eq!(&rt; locals.find(&name(rt.alloc(), "x")?), Some(3));
    locals.truncate(0);
    assert_eq!(&rt; locals.len(), 0);
    Ok(())
}

#[test]
fn keys_are_numbered(rt: HostRuntime) -> Result<(), Fail> {
    let mut keys = Numbering::new(rt.alloc());
    keys.push(5, 5)?;
    keys.push(7, 7)?;
    assert_eq!(&rt; keys.len(), 2);
    assert_eq!(&rt; keys.number(&7), Some(1));
    assert_eq!(&rt; keys.contains(&6), false);
    Ok(())
}
