use crate::TokenKind;

/// What stands at a place of a source.
#[derive(Debug, Drop)]
pub(crate) enum Lexeme {
    /// A character of white space.
    White,
    /// A comment.
    Comment,
    /// A token.
    Token(TokenKind),
    /// A text that is malformed in this way.
    Malformed(Flaw),
}

/// How a text can be malformed.
#[derive(Clone, Copy, Debug, PartialEq, Eq)]
pub(crate) enum Flaw {
    /// A character that begins no token.
    Character,
    /// A digit, and what goes on from it as an identifier does, that is no number.
    Number,
    /// The front of a string up to a backslash and a character that make no escape.
    Escape,
    /// The front of a string up to the end of its line or of the file.
    OpenString,
    /// A comment up to the end of the file.
    OpenComment,
}

/// What stands at a place, and how many characters it takes.
#[derive(Debug, Drop)]
pub(crate) struct Scanned {
    pub(crate) lexeme: Lexeme,
    pub(crate) len: usize,
}
