//! The rules of the class table on sources that are generated, and on a circle, which has several right answers.

use crate::reading::tree_of;
use class_table::table;
use java_syntax::CheckError;
use std::alloc::{AllocError, Global};
use std::test::Fail;

/// A rule that is broken, with the line and the column at which it is.
#[derive(Debug, Drop, PartialEq)]
struct Broken {
    rule: u8,
    line: u32,
    column: u32,
}

/// The rule that a source breaks, if any.
fn found(alloc: Global, text: &str) -> Result<Option<Broken>, Fail> {
    let tree = tree_of(alloc, text)?;
    let fault = match table(alloc, &tree) {
        Ok(_) => return Ok(None),
        Err(CheckError::Fault(fault)) => fault,
        Err(CheckError::OutOfMemory) => return Err(Fail::from("out of memory")),
    };
    let place = tree.places.get(fault.at as usize).ok_or("no place")?;
    Ok(Some(Broken {
        rule: fault.rule,
        line: place.line,
        column: place.column,
    }))
}

/// In a circle of two classes each is its own ancestor; the class below them is not.
#[test]
fn circle(rt: HostRuntime) -> Result<(), Fail> {
    let text = "class A extends B { }\nclass B extends C { }\nclass C extends B { }";
    let broken = found(rt.alloc(), text)?.ok_or("a table")?;
    assert_eq!(&rt; broken.rule, 3);
    assert_eq!(&rt; broken.column, 7);
    assert!(&rt; broken.line == 2 || broken.line == 3);
    Ok(())
}

/// A class with `main`.
const MAIN: &str = "class Main { public static void main(String[] args) { } }";

/// That many classes, each on a line of its own, with one that has `main` first.
fn classes(alloc: Global, count: usize) -> Result<String, AllocError> {
    let mut text = String::from_str(alloc, MAIN)?;
    for number in 1..count {
        text.push_str(&format!(in alloc; "\nclass C{number} {{ }}")?)?;
    }
    Ok(text)
}

/// A file may have 1,000 classes; the first beyond is refused at its name.
#[test]
fn class_limit(rt: HostRuntime) -> Result<(), Fail> {
    let alloc = rt.alloc();
    for (count, line) in [(1000, None), (1001, Some(1001)), (1003, Some(1001))] {
        let want = line.map(|line| Broken {
            rule: 9,
            line,
            column: 7,
        });
        let text = classes(alloc, count)?;
        assert_eq!(&rt; found(alloc, &text)?, want, "{count} classes");
    }
    Ok(())
}

/// That many instance fields named `letter` and a number, after a constant of the class.
fn fields(alloc: Global, letter: char, count: usize) -> Result<String, AllocError> {
    let mut text = format!(in alloc; "static final int K{letter} = 1;")?;
    for number in 0..count {
        text.push_str(&format!(in alloc; " int {letter}{number};")?)?;
    }
    Ok(text)
}

/// A class `A` with instance fields, and `B` below it with more.
fn two_classes(
    alloc: Global,
    parent: &str,
    above: usize,
    below: usize,
) -> Result<String, AllocError> {
    let a = fields(alloc, 'a', above)?;
    let b = fields(alloc, 'b', below)?;
    format!(in alloc; "class A extends {parent} {{ {a} }}\nclass B extends A {{ {b} }}\n{MAIN}")
}

/// A class may have 255 instance fields, inherited ones included; constants don't count, and the message of a
/// throwable does.
#[test]
fn field_limit(rt: HostRuntime) -> Result<(), Fail> {
    let alloc = rt.alloc();
    for (parent, above, below, is_right) in [
        ("Object", 255, 0, true),
        ("Object", 200, 55, true),
        ("Object", 200, 56, false),
        ("Object", 0, 256, false),
        ("Error", 200, 54, true),
        ("Error", 200, 55, false),
    ] {
        let beyond = Broken {
            rule: 9,
            line: 2,
            column: 7,
        };
        let want = if is_right { None } else { Some(beyond) };
        let text = two_classes(alloc, parent, above, below)?;
        assert_eq!(&rt;
            found(alloc, &text)?,
            want,
            "{above} and {below} fields below {parent}"
        );
    }
    Ok(())
}
