//! Checks the sources of a file, and prints of each whether it is accepted or which rule it breaks and where. Its
//! stored run is the table of the rules on classes, names, types and thrown exceptions; `tools/ask_java check` compares
//! it with `javac`.
//!
//! Each source begins after a line `== NAME` and ends before the next one.
#![tactic(auto)]

use java_source::{SourceError, SourceRefusal, program_of};
use std::alloc::{AllocError, Global};
use std::{env, fs, io};

const USAGE: &str = "usage: check_sources FILE";

/// What begins the line before a source.
const HEADING: &str = "== ";

/// A source and its name.
#[derive(Drop)]
struct Source {
    name: String,
    text: String,
}

fn main(rt: HostRuntime) -> io::Result<()> {
    let mut words = env::args(&rt)?;
    let _program = words.next();
    let Some(file) = words.next() else {
        return println!(rt; "{USAGE}");
    };
    let text = fs::read_to_string(&rt, &file)?;
    for source in sources(rt.alloc(), &text)? {
        match program_of(rt.alloc(), source.text.as_bytes()) {
            Ok(_) => println!(rt; "{}: accepted", source.name)?,
            Err(SourceError::Refused(SourceRefusal::Fault { rule, line, column })) => {
                println!(rt; "{}: rule {rule} at {line}:{column}", source.name)?;
            }
            Err(error) => println!(rt; "{}: {error:?}", source.name)?,
        }
    }
    Ok(())
}

// The sources of a file, in order. What stands before the first heading is none.
fn sources(alloc: Global, text: &str) -> Result<Vec<Source>, AllocError> {
    let mut sources = Vec::new(alloc);
    for line in text.lines() {
        match line.strip_prefix(HEADING) {
            Some(name) => sources.push(Source {
                name: String::from_str(alloc, name)?,
                text: String::new(alloc),
            })?,
            None => add_line(sources.last_mut(), line)?,
        }
    }
    Ok(sources)
}

// Adds a line to a source, where there is one.
fn add_line(source: Option<&mut Source>, line: &str) -> Result<(), AllocError> {
    if let Some(source) = source {
        source.text.push_str(line)?;
        source.text.push('\n')?;
    }
    Ok(())
}
