use crate::answer::{is_right, status, write_answer};
use crate::command::read_words;
use crate::dimacs::{DimacsError, read_dimacs};
use clause_solver::solve;
use pb_io::{Files, PutError, ReadError, Sink, put_all, read_file};
use std::alloc::{AllocError, Global};
use std::str;
use thiserror::Error;

// How many bytes a file may have.
const MOST_BYTES: usize = 1 << 30;

/// Why there is no answer.
#[derive(Debug, PartialEq, Eq, Drop, Error)]
pub enum Failure {
    #[error("usage: solve_dimacs [--check] LIMIT FILE, with a limit of 1 to 1000000000")]
    Words,
    #[error("the file can't be read: {0}")]
    Read(ReadError),
    #[error("the file isn't UTF-8")]
    Characters,
    #[error("{0}")]
    Form(DimacsError),
    #[error("the answer doesn't pass its check")]
    Check,
    #[error("the answer can't be written: {0}")]
    Put(PutError),
    #[error("out of memory")]
    OutOfMemory,
}

impl From<AllocError> for Failure {
    ghost use Rattle.std.specs.Prelude.{◌≡◌};
    ghost use Rattle.dimacs_run.specs.declared.running.Failure.TheVariants.{OutOfMemory};

    ghost from_gives = { λ _ failure. failure ≡ OutOfMemory };

    fn from(_: AllocError) -> Self {
        Failure::OutOfMemory
    }
}

/// Does what the words ask, of which the first is the program's name, and answers the status: 10 where an assignment
/// satisfies the clauses, 20 where none does, and 0 where the limit is used up.
pub fn run<F: Files, O: Sink>(
    alloc: Global,
    words: &[String],
    files: &mut F,
    out: &mut O,
) -> Result<u8, Failure> {
    let words = read_words(words).ok_or(Failure::Words)?;
    let bytes = read_file(alloc, files, words.file, MOST_BYTES).map_err(|error| Failure::Read(
        error,
    ))?;
    let text = str::from_utf8(&bytes).map_err(|_| Failure::Characters)?;
    let clauses = read_dimacs(alloc, text).map_err(|error| Failure::Form(error))?;
    let solved = solve(alloc, &clauses, words.limit)?;
    if words.check {
        if !is_right(alloc, &clauses, &solved)? {
            return Err(Failure::Check);
        }
        put_all(out, b"c checked\n").map_err(|error| Failure::Put(error))?;
    }
    write_answer(alloc, out, &solved).map_err(|error| Failure::Put(error))?;
    Ok(status(&solved))
}
