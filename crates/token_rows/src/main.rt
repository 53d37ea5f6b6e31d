//! Reads the sources of a file, one a line, and prints below each its tokens with their bytes, lines and columns, or
//! its fault. Its stored run is the table of sources for `java_tokens`.
//!
//! Line ends, control characters and bytes that aren't UTF-8 are written with a backslash, as `escape` says. A line
//! that begins with `==` names the sources after it.
#![tactic(auto)]

mod escape;

use crate::escape::{bytes_of, push_escaped};
use java_tokens::{Token, TokenKind, tokens};
use std::alloc::{AllocError, Global};
use std::fmt::Write;
use std::{env, fs, io};

const USAGE: &str = "usage: token_rows FILE";

/// What begins a line that holds no source.
const HEADING: &str = "== ";

/// The bytes of the longest source.
const MOST_BYTES: usize = 1 << 20;

fn main(rt: HostRuntime) -> io::Result<()> {
    let mut words = env::args(&rt)?;
    let _program = words.next();
    let Some(file) = words.next() else {
        return println!(rt; "{USAGE}");
    };
    let text = fs::read_to_string(&rt, &file)?;
    for line in text.lines() {
        println!(rt; "{line}")?;
        if !line.starts_with(HEADING) {
            println!(rt; "    {}", answer(rt.alloc(), line)?)?;
        }
    }
    Ok(())
}

/// The tokens of the source that a line stands for, or its fault.
fn answer(alloc: Global, line: &str) -> Result<String, AllocError> {
    let bytes = bytes_of(alloc, line)?;
    if bytes.len() > MOST_BYTES {
        return String::from_str(alloc, "too long");
    }
    match tokens(alloc, &bytes) {
        Ok(tokens) => described(alloc, &tokens),
        Err(error) => error.to_string(alloc),
    }
}

/// What each token is, the bytes that it takes, and its line and column.
fn described(alloc: Global, tokens: &[Token]) -> Result<String, AllocError> {
    let mut text = String::new(alloc);
    for token in tokens {
        if !text.is_empty() {
            text.push_str(", ")?;
        }
        push_kind(&mut text, &token.kind)?;
        write!(&mut text, " {}..{}", token.start, token.end)?;
        write!(&mut text, " {}:{}", token.line, token.column)?;
    }
    Ok(text)
}

fn push_kind(text: &mut String, kind: &TokenKind) -> Result<(), AllocError> {
    match kind {
        TokenKind::Ident(name) => {
            text.push_str("ident ")?;
            push_escaped(text, name.characters())
        }
        TokenKind::Text(name) => {
            text.push_str("text ")?;
            push_escaped(text, name.characters())
        }
        TokenKind::Number(number) => write!(text, "{number}"),
        TokenKind::Word(keyword) => text.push_str(keyword.text()),
        TokenKind::Op(operator) => write!(text, "{operator:?}"),
        TokenKind::End => text.push_str("end"),
    }
}
