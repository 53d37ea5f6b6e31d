//! The shapes of trees, where a text could be read in two ways.

use crate::reading::tree_of;
use java_syntax::{BinaryOp, Expr, FileTree, Member, Stmt};
use std::alloc::Global;
use std::test::Fail;

/// The one member of the one class.
fn only_member(tree: &FileTree) -> Option<&Member> {
    let [class] = tree.classes.as_slice() else {
        return None;
    };
    match class.members.as_slice() {
        [member] => Some(member),
        _ => None,
    }
}

/// What kind of expression the text is, and of a subtraction whether it subtracts 3.
fn kind(alloc: Global, text: &str) -> Result<&'static str, Fail> {
    let tree = tree_of(alloc, &format!(in alloc; "class A {{ int x = {text} ; }}")?)?;
    let Some(Member::Field(field)) = only_member(&tree) else {
        return Ok("not one field");
    };
    match &field.value {
        Some(Expr::Cast(..)) => Ok("cast"),
        Some(Expr::Paren(..)) => Ok("parentheses"),
        Some(Expr::Conditional(..)) => Ok("conditional"),
        Some(Expr::Binary(BinaryOp::Subtract, _, right)) => match right.get() {
            Expr::Number(_, 3) => Ok("subtraction of 3"),
            _ => Ok("subtraction"),
        },
        _ => Ok("other"),
    }
}

#[test]
fn kinds_of_expressions(rt: HostRuntime) -> Result<(), Fail> {
    for (text, want) in [
        ("1 - 2 - 3", "subtraction of 3"),
        ("1 - ( 2 - 3 )", "subtraction"),
        ("( A ) b", "cast"),
        ("( A ) ! b", "cast"),
        ("( int [ ] ) b", "cast"),
        ("( a ) - b", "subtraction"),
        ("( a )", "parentheses"),
        ("a ? b : c - 3", "conditional"),
    ] {
        assert_eq!(rt; kind(rt.alloc(), text)?, want, "{text}");
    }
    Ok(())
}

/// Whether the one statement of the one method is an `if`, and whether it has an `else`.
fn outer_else(alloc: Global, text: &str) -> Result<Option<bool>, Fail> {
    let tree = tree_of(
        alloc,
        &format!(in alloc; "class A {{ void f ( ) {{ {text} }} }}")?,
    )?;
    let Some(Member::Method(method)) = only_member(&tree) else {
        return Err(Fail::from("not one method"));
    };
    match method.body.as_slice() {
        [Stmt::If(_, _, other)] => Ok(Some(other.is_some())),
        _ => Ok(None),
    }
}

#[test]
fn else_of_the_nearest_if(rt: HostRuntime) -> Result<(), Fail> {
    for (text, want) in [
        ("if ( a ) if ( b ) ; else ;", Some(false)),
        ("if ( a ) { if ( b ) ; } else ;", Some(true)),
        ("if ( a ) if ( b ) ; else ; else ;", Some(true)),
        ("while ( a ) if ( b ) ; else ;", None),
    ] {
        assert_eq!(rt; outer_else(rt.alloc(), text)?, want, "{text}");
    }
    Ok(())
}
