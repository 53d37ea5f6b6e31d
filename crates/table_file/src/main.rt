//! Reads a file and prints what class_table finds in it: `table` with the number of its classes, `rule R at L:C`, a
//! fault of its tokens, `syntax at L:C`, `too deep`, or `out of memory`. `bench/table` measures it.
//!
//! With the word `tree` after the file it reads the tree alone and prints `tree`, `syntax at token N`, `too deep`, a
//! fault of its tokens, or `out of memory`. `bench/parse` measures that.
#![tactic(auto)]

use class_table::table;
use java_parse::{ParseError, parse};
use java_syntax::{CheckError, FileTree};
use java_tokens::{Token, tokens};
use std::alloc::Global;
use std::{env, fs, io};

/// The bytes of the longest file that it reads.
const MOST_BYTES: usize = 1 << 30;

const USAGE: &str = "usage: table_file FILE [tree]";

/// Prints whether a tree was read.
fn print_tree(rt: &HostRuntime, read: &Result<FileTree, ParseError>) -> io::Result<()> {
    match read {
        Ok(_) => println!(rt; "tree"),
        Err(ParseError::Syntax(at)) => println!(rt; "syntax at token {at}"),
        Err(ParseError::TooDeep) => println!(rt; "too deep"),
        Err(ParseError::OutOfMemory) => println!(rt; "out of memory"),
    }
}

/// Prints what is wrong at a token, with its line and column.
fn print_place(rt: &HostRuntime, what: &str, tokens: &[Token], at: u32) -> io::Result<()> {
    match tokens.get(at as usize) {
        Some(token) => println!(rt; "{what} at {}:{}", token.line, token.column),
        None => println!(rt; "{what} at the end"),
    }
}

/// Prints the answer of the table's checks to a tree.
fn print_table(
    rt: &HostRuntime,
    alloc: Global,
    tokens: &[Token],
    tree: &FileTree,
) -> io::Result<()> {
    match table(alloc, tree) {
        Ok(table) => println!(rt; "table of {} classes", table.classes.len()),
        Err(CheckError::Fault(fault)) => {
            print_place(
                rt,
                &format!(in alloc; "rule {}", fault.rule)?,
                tokens,
                fault.at,
            )
        }
        Err(CheckError::OutOfMemory) => println!(rt; "out of memory"),
    }
}

fn main(rt: HostRuntime) -> io::Result<()> {
    let alloc = rt.alloc();
    let mut words = env::args(&rt)?;
    let _program = words.next();
    let Some(file) = words.next() else {
        return println!(rt; "{USAGE}");
    };
    let tree_alone = match words.next() {
        None => false,
        Some(word) => {
            if word.as_str() != "tree" {
                return println!(rt; "{USAGE}");
            }
            true
        }
    };
    let bytes = fs::read(&rt, &file)?;
    if bytes.len() > MOST_BYTES {
        return println!(rt; "too long");
    }
    let tokens = match tokens(alloc, &bytes) {
        Ok(tokens) => tokens,
        Err(error) => return println!(rt; "{error}"),
    };
    let read = parse(alloc, &tokens);
    if tree_alone {
        return print_tree(&rt, &read);
    }
    match read {
        Ok(tree) => print_table(&rt, alloc, &tokens, &tree),
        Err(ParseError::Syntax(at)) => print_place(&rt, "syntax", &tokens, at),
        Err(ParseError::TooDeep) => println!(rt; "too deep"),
        Err(ParseError::OutOfMemory) => println!(rt; "out of memory"),
    }
}
