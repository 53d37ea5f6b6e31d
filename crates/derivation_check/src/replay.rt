ghost use Rattle.std.specs.Prelude.{◌≡◌, ◌+◌, ◌<◌, ◌^◌, ◌++◌, ℕ, Bool, Some, Ok, Err, IfOk, IfErr, length, vec_len};
ghost use Rattle.std.specs.Option.{option_copied};
ghost use Rattle.clause_form.specs.Clauses.{Holds};
ghost use Rattle.clause_form.specs.Derivation as derivation;

use crate::CheckLogError;
use clause_form::{Clause, Clauses, Line, negated};
use std::alloc::{AllocError, Global};

/// The clause of each line of the log, in order. A line starts with the clause `first`. Each cut needs its pivot in
/// the clause so far and the pivot's negation in the clause `with`, and gives their resolvent. The clauses are
/// numbered from 1, and line `k` makes the clause with the number of clauses plus `k`.
///
/// `Bad(k)` comes exactly where `k` is the first line that can't be made so, counted from 1, and `OutOfMemory` where
/// memory ran out.
pub fn check(alloc: Global, clauses: &Clauses, log: &[Line]) -> Result<Vec<Clause>, CheckLogError>
    requires { vec_len clauses.now.clauses + length log.now < 2 ^ 32 }
    ensures made { IfOk result (λ made. derivation.derived clauses.now.clauses.items log.now ≡ Ok made.items) }
    ensures bad { IfErr result (λ error.
        (k : ℕ) → error ≡ CheckLogError.Bad k → derivation.derived clauses.now.clauses.items log.now ≡ Err k) }
    // A satisfying assignment satisfies what was derived, so where that has the empty clause there is none.
    ensures follows { IfOk result (λ made.
        (a : ℕ → Bool) → Holds clauses.now.clauses.items a → Holds made.items a) }
{
    let given = clauses.clauses.as_slice();
    let mut made: Vec<Clause> = Vec::new(alloc);
    let mut number: u32 = 0;
    for line in log {
        number += 1;
        let Some(clause) = clause_of(alloc, given, made.as_slice(), line)? else {
            return Err(CheckLogError::Bad(number));
        };
        made.push(clause).map_err(AllocError::from)?;
    }
    Ok(made)
}

// The clause of a line, where it can be made of the clauses given and those made so far.
fn clause_of(
    alloc: Global,
    given: &[Clause],
    made: &[Clause],
    line: &Line,
) -> Result<Option<Clause>, AllocError>
    ensures { IfOk result (λ clause. clause ≡ derivation.clause_of (given.now ++ made.now) line.now) }
{
    let Some(first) = numbered(given, made, line.first) else {
        return Ok(None);
    };
    let mut clause = first.copy(alloc)?;
    for cut in &line.cuts {
        let Some(with) = numbered(given, made, cut.with) else {
            return Ok(None);
        };
        // The order matters: only the pivot of a clause can be negated without overflow.
        if !clause.has(cut.pivot) || !with.has(negated(cut.pivot)) {
            return Ok(None);
        }
        clause = clause.resolvent(alloc, cut.pivot, with)?;
    }
    Ok(Some(clause))
}

// The clause of that number, counted from 1, of the clauses given and after them those made.
fn numbered<'a>(given: &'a [Clause], made: &'a [Clause], number: u32) -> Option<&'a Clause>
    ensures { option_copied result ≡ derivation.numbered (given.now ++ made.now) number }
{
    if number == 0 {
        return None;
    }
    let place = number as usize - 1;
    if place < given.len() {
        given.get(place)
    } else {
        made.get(place - given.len())
    }
}
