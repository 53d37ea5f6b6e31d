//! The rows of the table. After its heading a row has lines of these forms, and every other line is one of its source:
//!
//! - `words: WORD ..`: the words of the command line, `planb F` where it isn't there;
//! - `largest write: N`: how many bytes the output and the report take in one write, 4096 where it isn't there;
//! - `failing files: N`, `failing write: N`, `failing flush: N`, `failing report write: N`, `failing report flush: N`:
//!   the Nth call of this kind fails;
//! - `steps: untold`: the steps aren't printed;
//! - `bytes: HEX ..`, `blanks: N`, `repeat: N TEXT`: a line of the source that is these bytes, that many blanks, or the
//!   text that many times.
//!
//! The lines of the source have a line feed between them and none after the last; empty lines before them are left out.

use anyhow::{Context, Result};
use std::alloc::{AllocError, Global};

/// The numbers of the calls that are to fail, counted from 1; 0 is none.
#[derive(Clone, Copy, Default)]
pub struct Failing {
    pub files: u64,
    pub write: u64,
    pub flush: u64,
    pub report_write: u64,
    pub report_flush: u64,
}

/// One call of `planb`, and what is to be told of it.
#[derive(Drop)]
pub struct TopRow {
    pub name: String,
    pub words: Vec<String>,
    pub source: Vec<u8>,
    pub largest_write: usize,
    pub failing: Failing,
    pub tells_steps: bool,
}

// What begins the line before a row.
const HEADING: &str = "== ";

/// The rows of a file, in order. What stands before the first heading is none.
pub fn rows(alloc: Global, text: &str) -> Result<Vec<TopRow>> {
    let mut rows = Vec::new(alloc);
    for line in text.lines() {
        match line.strip_prefix(HEADING) {
            Some(name) => rows.push(TopRow::new(alloc, name)?)?,
            None => add_line(alloc, rows.last_mut(), line)?,
        }
    }
    Ok(rows)
}

// Adds a line to a row, where there is one.
fn add_line(alloc: Global, row: Option<&mut TopRow>, line: &str) -> Result<()> {
    match row {
        Some(row) => row.add(alloc, line).context(format_args!("in {line:?}")),
        None => Ok(()),
    }
}

impl TopRow {
    // A row with this name and no further lines.
    fn new(alloc: Global, name: &str) -> Result<TopRow, AllocError> {
        Ok(TopRow {
            name: String::from_str(alloc, name)?,
            words: words(alloc, "planb F")?,
            source: Vec::new(alloc),
            largest_write: 4096,
            failing: Failing::default(),
            tells_steps: true,
        })
    }

    // Takes a further line.
    fn add(&mut self, alloc: Global, line: &str) -> Result<()> {
        let Some((key, value)) = line.split_once(':') else {
            return Ok(self.add_source(line.as_bytes())?);
        };
        let value = value.trim_start();
        match key {
            "words" => self.words = words(alloc, value)?,
            "largest write" => self.largest_write = value.parse()?,
            "failing files" => self.failing.files = value.parse()?,
            "failing write" => self.failing.write = value.parse()?,
            "failing flush" => self.failing.flush = value.parse()?,
            "failing report write" => self.failing.report_write = value.parse()?,
            "failing report flush" => self.failing.report_flush = value.parse()?,
            "steps" => self.tells_steps = false,
            "bytes" => self.add_source(&bytes(alloc, value)?)?,
            "blanks" => self.add_source(" ".repeat(alloc, value.parse()?)?.as_bytes())?,
            "repeat" => self.add_source(repeated(alloc, value)?.as_bytes())?,
            _ => self.add_source(line.as_bytes())?,
        }
        Ok(())
    }

    // Adds a line to the source.
    fn add_source(&mut self, line: &[u8]) -> Result<(), AllocError> {
        if !self.source.is_empty() {
            self.source.push(b'\n')?;
        }
        self.source.extend_from_slice(line)
    }
}

// The words between blanks.
fn words(alloc: Global, text: &str) -> Result<Vec<String>, AllocError> {
    text.split_whitespace()
        .map(|word| String::from_str(alloc, word))
        .try_collect(alloc)
}

// The bytes that are spelled by hexadecimal numbers with blanks between them.
fn bytes(alloc: Global, text: &str) -> Result<Vec<u8>> {
    let mut bytes = Vec::new(alloc);
    for number in text.split_whitespace() {
        bytes.push(u8::from_str_radix(number, 16)?)?;
    }
    Ok(bytes)
}

// A text as many times as the number before it says.
fn repeated(alloc: Global, value: &str) -> Result<String> {
    let (count, text) = value.split_once(' ').context("no text to repeat")?;
    Ok(text.repeat(alloc, count.parse()?)?)
}
