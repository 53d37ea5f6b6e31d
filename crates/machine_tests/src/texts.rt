//! The texts of a program, and the numbers of the built-in classes.

use core_tree::{BuiltIn, Text};
use std::test::Fail;

#[test]
fn texts_are_counted_and_shared(rt: HostRuntime) -> Result<(), Fail> {
    let alloc = rt.alloc();
    let characters = ['a', '\u{e9}', '\u{ffff}', '\u{10000}', '\u{1f600}'];
    let text = Text::new(alloc, Vec::from_array(alloc, characters)?)?;
    let shared = text.share()?;
    assert_eq!(rt; text.units(), 7);
    drop(text);
    assert_eq!(rt; shared.units(), 7);
    assert_eq!(rt; shared.characters(), characters.as_slice());
    Ok(())
}

#[test]
fn built_in_classes_have_their_numbers(rt: HostRuntime) {
    assert_eq!(rt; BuiltIn::Object.number(), 0);
    assert_eq!(rt; BuiltIn::ArithmeticException.number(), 5);
    assert_eq!(rt; BuiltIn::RequiresError.number(), 17);
}
