//! What the tests read from a text.

use class_table::{ClassTable, table};
use java_parse::parse;
use java_syntax::FileTree;
use java_tokens::{Name, tokens};
use std::alloc::{AllocError, Global};
use std::test::Fail;

/// The bytes of the longest text that the tests read.
const MOST_BYTES: usize = 1 << 20;

/// The name with these characters.
pub fn name(alloc: Global, text: &str) -> Result<Name, AllocError> {
    Ok(Name::new(text.chars().collect(alloc)?))
}

/// The tree of a text.
pub fn tree_of(alloc: Global, text: &str) -> Result<FileTree, Fail> {
    if text.len() > MOST_BYTES {
        return Err(Fail::from("a long text"));
    }
    let tokens = tokens(alloc, text.as_bytes())?;
    Ok(parse(alloc, &tokens)?)
}

/// The class table of a text.
pub fn table_of(alloc: Global, text: &str) -> Result<ClassTable, Fail> {
    Ok(table(alloc, &tree_of(alloc, text)?)?)
}
