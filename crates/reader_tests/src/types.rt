//! The types that are spelled in a file.

use crate::reading::name;
use core_tree::Ty;
use java_names::{Numbering, arrays, declared_type, resolve_type, type_of};
use java_syntax::{BaseType, CheckError, Fault, Ident, TypeTree};
use std::alloc::{AllocError, Global};
use std::test::Fail;

/// A type with a name at token 7.
fn named(alloc: Global, text: &str, dimensions: u32) -> Result<TypeTree, AllocError> {
    let ident = Ident {
        at: 7,
        name: name(alloc, text)?,
    };
    Ok(TypeTree {
        base: BaseType::Class(ident),
        dimensions,
    })
}

#[test]
fn types_are_resolved(rt: HostRuntime) -> Result<(), Fail> {
    let names = Numbering::new(rt.alloc());
    let tree = named(rt.alloc(), "String", 1)?;
    let found = type_of(rt.alloc(), &names, &tree)?;
    assert_eq!(&rt; matches!(&found, Some(Ty::Array(_))), true);
    let declared = declared_type(rt.alloc(), &names, &tree)?;
    assert_eq!(&rt; matches!(declared.get(), Ty::Array(_)), true);
    let nested = arrays(rt.alloc(), Ty::Int, 2)?;
    assert_eq!(&rt; matches!(&nested, Ty::Array(_)), true);
    Ok(())
}

#[test]
fn unknown_types_break_rule_10(rt: HostRuntime) -> Result<(), Fail> {
    let names = Numbering::new(rt.alloc());
    let unknown = named(rt.alloc(), "C", 0)?;
    match resolve_type(rt.alloc(), &names, &unknown) {
        Err(CheckError::Fault(fault)) => assert_eq!(&rt; fault, Fault { rule: 10, at: 7 }),
        _ => assert!(&rt; false),
    }
    Ok(())
}
