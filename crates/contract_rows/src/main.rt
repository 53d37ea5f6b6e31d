//! Reads the texts of a file, one a line, and prints before each what the reader of contracts answers: `tree` with the
//! number of the token after it, `syntax` or `too deep`. Its stored run is the table of texts for `spec_syntax`.
//!
//! A line `== NAME: SOURCE` begins a block of texts: each text of the block stands in that source in the place of the
//! word TEXT. A source is a spec method where the block's name begins with `Spec`, and else a contract.
#![tactic(auto)]

ghost use Rattle.std.specs.Prelude.{◌<◌, ◌^◌, length};

use java_tokens::{Token, tokens};
use spec_syntax::{ParseError, parse_contract, parse_spec_method};
use std::alloc::{AllocError, Global};
use std::{env, fs, io};

const USAGE: &str = "usage: contract_rows FILE";

/// What begins the line before a block.
const HEADING: &str = "== ";

/// The bytes of the longest source.
const MOST_BYTES: usize = 1 << 20;

fn main(rt: HostRuntime) -> io::Result<()> {
    let mut words = env::args(&rt)?;
    let _program = words.next();
    let Some(file) = words.next() else {
        return println!(rt; "{USAGE}");
    };
    let text = fs::read_to_string(&rt, &file)?;
    let mut around = ("", "");
    let mut is_spec = false;
    for line in text.lines() {
        if let Some(heading) = line.strip_prefix(HEADING) {
            let (name, source) = heading.split_once(": ").unwrap_or((heading, ""));
            around = source.split_once("TEXT").unwrap_or(("", ""));
            is_spec = name.starts_with("Spec");
            println!(rt; "{HEADING}{name}")?;
        } else {
            println!(rt; "{}: {line}", answer_in(rt.alloc(), is_spec, around, line)?)?;
        }
    }
    Ok(())
}

/// What the reader answers to a text between these two.
fn answer_in(
    alloc: Global,
    is_spec: bool,
    around: (&str, &str),
    text: &str,
) -> Result<String, AllocError> {
    let (before, after) = around;
    answer(alloc, is_spec, &format!(in alloc; "{before}{text}{after}")?)
}

/// What the reader answers to a source.
fn answer(alloc: Global, is_spec: bool, source: &str) -> Result<String, AllocError> {
    if source.len() > MOST_BYTES {
        return format!(in alloc; "too long");
    }
    let Ok(tokens) = tokens(alloc, source.as_bytes()) else {
        return format!(in alloc; "no tokens");
    };
    match end(alloc, is_spec, &tokens) {
        Ok(end) => format!(in alloc; "tree {end}"),
        Err(ParseError::Syntax(_)) => format!(in alloc; "syntax"),
        Err(ParseError::TooDeep) => format!(in alloc; "too deep"),
        Err(ParseError::OutOfMemory) => Err(AllocError),
    }
}

/// The number of the token after the contract or spec method that begins with the first token.
fn end(alloc: Global, is_spec: bool, tokens: &[Token]) -> Result<u32, ParseError>
    requires { length tokens.now < 2 ^ 32 }
{
    if is_spec {
        let (_, end) = parse_spec_method(alloc, tokens, 0)?;
        return Ok(end);
    }
    let (_, end) = parse_contract(alloc, tokens, 0)?;
    Ok(end)
}
