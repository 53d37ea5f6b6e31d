//! Reads the texts of a file, one a line, and prints before each what the parser answers: `tree`, `syntax` or
//! `too deep`. Its stored run is the table of texts for `java_parse`.
//!
//! A line `== NAME: SOURCE` begins a block of texts: each text of the block stands in that source in the place of the
//! word TEXT. An empty line is an empty text.
#![tactic(auto)]

use java_parse::{ParseError, parse};
use java_tokens::tokens;
use std::alloc::{AllocError, Global};
use std::{env, fs, io};

const USAGE: &str = "usage: parse_rows FILE";

/// What begins the line before a block.
const HEADING: &str = "== ";

/// The bytes of the longest source.
const MOST_BYTES: usize = 1 << 20;

fn main(rt: HostRuntime) -> io::Result<()> {
    let mut words = env::args(&rt)?;
    let _program = words.next();
    let Some(file) = words.next() else {
        return println!(rt; "{USAGE}");
    };
    let text = fs::read_to_string(&rt, &file)?;
    let mut around = ("", "");
    for line in text.lines() {
        if let Some(heading) = line.strip_prefix(HEADING) {
            let (name, source) = heading.split_once(": ").unwrap_or((heading, ""));
            around = source.split_once("TEXT").unwrap_or(("", ""));
            println!(rt; "{HEADING}{name}")?;
        } else {
            println!(rt; "{}: {line}", answer_in(rt.alloc(), around, line)?)?;
        }
    }
    Ok(())
}

/// What the parser answers to a text between these two.
fn answer_in(alloc: Global, around: (&str, &str), text: &str) -> Result<&'static str, AllocError> {
    let (before, after) = around;
    answer(alloc, &format!(in alloc; "{before}{text}{after}")?)
}

/// What the parser answers to a source.
fn answer(alloc: Global, source: &str) -> Result<&'static str, AllocError> {
    if source.len() > MOST_BYTES {
        return Ok("too long");
    }
    let Ok(tokens) = tokens(alloc, source.as_bytes()) else {
        return Ok("no tokens");
    };
    match parse(alloc, &tokens) {
        Ok(_) => Ok("tree"),
        Err(ParseError::Syntax(_)) => Ok("syntax"),
        Err(ParseError::TooDeep) => Ok("too deep"),
        Err(ParseError::OutOfMemory) => Err(AllocError),
    }
}
