ghost use Rattle.std.specs.Prelude.{◌^◌, ◌<◌, ◌≤◌, ◌≢◌, unsigned_abs, IfSome, IfOk, pos};

use crate::clause_reader::ClauseReader;
use clause_form::Clauses;
use std::alloc::{AllocError, Global};
use thiserror::Error;

/// Why a text has no clauses. The number is that of the line, from 1.
#[derive(Clone, Copy, Debug, PartialEq, Eq, Drop, Error)]
pub enum DimacsError {
    #[error("line {0}: expected 'p cnf VARIABLES CLAUSES'")]
    Header(u32),
    #[error("line {0}: expected a literal of one of the variables, or 0")]
    Literal(u32),
    #[error("line {0}: the last clause isn't ended by 0")]
    Unended(u32),
    #[error("line {0}: the number of clauses isn't that of the first line")]
    Count(u32),
    #[error("out of memory")]
    OutOfMemory,
}

impl From<AllocError> for DimacsError {
    ghost use Rattle.std.specs.Prelude.{◌≡◌};
    ghost use Rattle.dimacs_run.specs.declared.dimacs.DimacsError.TheVariants.{OutOfMemory};

    ghost from_gives = { λ _ error. error ≡ OutOfMemory };

    fn from(_: AllocError) -> Self {
        DimacsError::OutOfMemory
    }
}

// What the first line that is no comment says.
#[derive(Clone, Copy)]
struct Header {
    variables: u32,
    clauses: usize,
}

/// The clauses of a text in the DIMACS form: lines that begin with `c` are comments, the first other line is
/// `p cnf VARIABLES CLAUSES`, and the rest are literals, with a 0 after each clause. A literal that stands in a clause
/// twice is read once.
pub(crate) fn read_dimacs(alloc: Global, text: &str) -> Result<Clauses, DimacsError> {
    let mut lines: u32 = 0;
    let mut count: usize = 0;
    let mut reader: Option<ClauseReader> = None;
    for line in text.lines() {
        lines = lines.saturating_add(1);
        if is_comment(line) {
            continue;
        }
        reader = Some(match reader {
            Some(reader) => read_line(reader, line, lines)?,
            None => {
                let header = read_header(line).ok_or(DimacsError::Header(lines))?;
                count = header.clauses;
                ClauseReader::new(alloc, header.variables)
            }
        });
    }
    finish(reader, count, lines)
}

// The clauses that were read, where all of them are ended and there are as many as announced.
fn finish(reader: Option<ClauseReader>, count: usize, lines: u32) -> Result<Clauses, DimacsError> {
    let Some(reader) = reader else {
        return Err(DimacsError::Header(lines));
    };
    if reader.has_begun {
        return Err(DimacsError::Unended(lines));
    }
    if reader.count() != count {
        return Err(DimacsError::Count(lines));
    }
    reader.into_clauses().ok_or(DimacsError::Count(lines))
}

fn is_comment(line: &str) -> bool {
    line.starts_with('c') || line.split_whitespace().next().is_none()
}

fn read_header(line: &str) -> Option<Header>
    ensures { IfSome result (λ header. header.variables < 2 ^ 31) }
{
    let mut words = line.split_whitespace();
    if words.next()? != "p" || words.next()? != "cnf" {
        return None;
    }
    let variables: u32 = words.next()?.parse().ok()?;
    let clauses: usize = words.next()?.parse().ok()?;
    if variables >= 1 << 31 || words.next().is_some() {
        return None;
    }
    Some(Header { variables, clauses })
}

// Reads the literals of a line.
fn read_line(
    mut reader: ClauseReader,
    line: &str,
    number: u32,
) -> Result<ClauseReader, DimacsError> {
    for word in line.split_whitespace() {
        reader = read_word(reader, word, number)?;
    }
    Ok(reader)
}

// Reads one literal, or the end of a clause.
fn read_word(reader: ClauseReader, word: &str, number: u32) -> Result<ClauseReader, DimacsError> {
    let literal: i32 = word.parse().map_err(|_| DimacsError::Literal(number))?;
    if literal == 0 {
        return Ok(reader.end()?);
    }
    if literal.unsigned_abs() > reader.variables {
        return Err(DimacsError::Literal(number));
    }
    Ok(reader.add(literal)?)
}
