use clause_form::{Clauses, Line};
use clause_solver::Solved;
use derivation_check::{CheckLogError, check};
use itoa::{Buffer, Integer};
use pb_io::{PutError, Sink, put_all};
use std::alloc::{AllocError, Global};

// A log that is checked has fewer lines.
const MOST_LINES: usize = 1 << 31;

/// Whether the answer passes: whether the assignment satisfies the clauses, or the log can be replayed and, where
/// the clauses are said to have no assignment, ends with the empty clause.
pub(crate) fn is_right(
    alloc: Global,
    clauses: &Clauses,
    solved: &Solved,
) -> Result<bool, AllocError> {
    match solved {
        Solved::Sat(values) => Ok(satisfies(clauses, values.as_slice())),
        Solved::Unsat(log) => Ok(last_is_empty(alloc, clauses, log.as_slice())? == Some(true)),
        Solved::Spent(log) => Ok(last_is_empty(alloc, clauses, log.as_slice())?.is_some()),
    }
}

fn satisfies(clauses: &Clauses, values: &[bool]) -> bool {
    values.len() == clauses.variables as usize && clauses.satisfied(values)
}

// Whether the last clause of a log is empty, or nothing where the log can't be replayed.
fn last_is_empty(
    alloc: Global,
    clauses: &Clauses,
    log: &[Line],
) -> Result<Option<bool>, AllocError> {
    if log.len() >= MOST_LINES {
        return Ok(None);
    }
    match check(alloc, clauses, log) {
        Ok(made) => Ok(
            made.as_slice()
                .last()
                .map(|clause| clause.literals().is_empty()),
        ),
        Err(CheckLogError::Bad(_)) => Ok(None),
        Err(CheckLogError::OutOfMemory) => Err(AllocError),
    }
}

/// The status of an answer, as SAT solvers have it.
pub(crate) fn status(solved: &Solved) -> u8 {
    match solved {
        Solved::Sat(_) => 10,
        Solved::Unsat(_) => 20,
        Solved::Spent(_) => 0,
    }
}

/// Prints an answer: the literals that are true, or the log in the form of certificates.
pub(crate) fn write_answer<O: Sink>(
    alloc: Global,
    sink: &mut O,
    solved: &Solved,
) -> Result<(), PutError> {
    match solved {
        Solved::Sat(values) => {
            put_all(sink, b"s SATISFIABLE\n")?;
            let text = values_text(alloc, values.as_slice()).map_err(|_| PutError::OutOfMemory)?;
            put_all(sink, text.as_bytes())
        }
        Solved::Unsat(log) => {
            put_all(sink, b"s UNSATISFIABLE\n")?;
            write_log(alloc, sink, log.as_slice())
        }
        Solved::Spent(log) => {
            put_all(sink, b"s UNKNOWN\n")?;
            write_log(alloc, sink, log.as_slice())
        }
    }
}

fn values_text(alloc: Global, values: &[bool]) -> Result<String, AllocError> {
    let mut text = String::from_str(alloc, "v")?;
    let mut variable: u32 = 0;
    for value in values {
        variable = variable.saturating_add(1);
        text.push_str(if *value { " " } else { " -" })?;
        push_number(&mut text, variable)?;
    }
    text.push_str(" 0\n")?;
    Ok(text)
}

fn write_log<O: Sink>(alloc: Global, sink: &mut O, log: &[Line]) -> Result<(), PutError> {
    let mut digits = Buffer::new();
    put_all(sink, b"lines ")?;
    put_all(sink, digits.format(log.len()).as_bytes())?;
    put_all(sink, b"\n")?;
    for line in log {
        let text = line_text(alloc, line).map_err(|_| PutError::OutOfMemory)?;
        put_all(sink, text.as_bytes())?;
    }
    Ok(())
}

// The first clause's number, each cut's pivot and clause, and 0.
fn line_text(alloc: Global, line: &Line) -> Result<String, AllocError> {
    let mut text = String::new(alloc);
    push_number(&mut text, line.first)?;
    for cut in &line.cuts {
        text.push(' ')?;
        push_number(&mut text, cut.pivot)?;
        text.push(' ')?;
        push_number(&mut text, cut.with)?;
    }
    text.push_str(" 0\n")?;
    Ok(text)
}

fn push_number<I: Integer>(text: &mut String, number: I) -> Result<(), AllocError> {
    let mut digits = Buffer::new();
    text.push_str(digits.format(number))?;
    Ok(())
}
