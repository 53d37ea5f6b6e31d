//! The places of tokens.

use crate::reading::tree_of;
use java_syntax::TokenPlace;
use java_tokens::{Token, TokenKind};
use std::test::Fail;

#[test]
fn place_of_a_token(rt: HostRuntime) {
    let token = Token {
        kind: TokenKind::End,
        start: 30,
        end: 30,
        line: 4,
        column: 9,
    };
    let want = TokenPlace { line: 4, column: 9 };
    assert_eq!(rt; TokenPlace::of(&token), want);
}

/// Line and column of each token of `TEXT`: a line ends at a line feed, or at a carriage return with one, and a column
/// counts characters, not bytes.
const PLACES: [(u32, u32); 10] = [
    (1, 1),
    (1, 7),
    (1, 9),
    (2, 3),
    (2, 10),
    (2, 12),
    (3, 1),
    (3, 6),
    (4, 1),
    (4, 2),
];

const TEXT: &str = "class A {\n  String s =\r\n\"é𝄞\" ;\n}";

#[test]
fn places_of_tokens(rt: HostRuntime) -> Result<(), Fail> {
    let tree = tree_of(rt.alloc(), TEXT)?;
    assert_eq!(rt; tree.places.len(), PLACES.len());
    for (place, want) in tree.places.as_slice().iter().zip(PLACES.iter()) {
        assert_eq!(rt; (place.line, place.column), *want);
    }
    Ok(())
}
