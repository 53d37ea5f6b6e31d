ghost use Rattle.std.specs.Prelude.{◌≡◌, ◌+◌, ◌-◌, ◌^◌, ◌<◌, ◌≤◌, ◌≢◌, ℤ, neg_ℤ, pos, true, false, length, List, IfOk, take, slice_index_or, [], Some};
ghost use Rattle.std.specs.List.{All};
ghost use Rattle.clause_form.specs.Clauses.{has, is_literal, is_clause};
ghost use Rattle.clause_form.specs.Derivation.{clause_of};
ghost use Rattle.clause_form.specs.Derivation.{Adds};
ghost use Rattle.clause_form.specs.Clauses.{IsFull};
ghost use Rattle.clause_solver.specs.Assigned.{at, IsConsistent};
ghost use Rattle.clause_solver.specs.Learning.{later_of, AllFalse, IsLatest, HaveReasons, IsSaturated};

use crate::trail::Trail;
use clause_form::{Clause, Cut, Line, negated};
use std::alloc::{AllocError, Global};

/// The literal of a false clause that came to be false last.
#[derive(Clone, Copy, Debug)]
pub(crate) struct Latest {
    pub(crate) literal: i32,
    /// The index of its negation on the trail.
    pub(crate) place: usize,
    /// How long the trail was when the others were all false.
    pub(crate) rest: usize,
}

/// The literal of a false clause that came to be false last.
pub(crate) fn find_latest(trail: &Trail, literals: &[i32]) -> Latest
    requires nonempty { 0 < length literals.now }
    requires all_false { AllFalse literals.now trail.now.literals }
    requires clause { is_clause literals.now ≡ true }
    ensures { IsLatest trail.now.literals literals.now result }
{
    let mut found = Latest {
        literal: literals[0],
        place: place_of_negation(trail, literals[0]),
        rest: 0,
    };
    for i in 1..literals.len() {
        let literal = literals[i];
        let place = place_of_negation(trail, literal);
        found = later(found, literal, place);
    }
    found
}

/// The index on the trail of the negation of a literal.
fn place_of_negation(trail: &Trail, literal: i32) -> usize
    requires literal { is_literal literal ≡ true }
    requires holds { has (neg_ℤ literal) trail.now.literals ≡ true }
    ensures within { result < length trail.now.literals }
    ensures at { at trail.now.literals result ≡ neg_ℤ literal }
    ensures consistent { IsConsistent trail.now }
    ensures small { length trail.now.literals < 2 ^ 64 }
{
    let _count = trail.literals().len();
    trail.place(negated(literal))
}

/// The latest of the literals so far and of one more.
fn later(found: Latest, literal: i32, place: usize) -> Latest
    requires { (found.place + 1 < 2 ^ 64) × (place + 1 < 2 ^ 64) }
    ensures { result ≡ later_of found literal place }
{
    if place > found.place {
        Latest {
            literal,
            place,
            rest: found.place + 1,
        }
    } else if place >= found.rest {
        Latest {
            literal: found.literal,
            place: found.place,
            rest: place + 1,
        }
    } else {
        found
    }
}

/// A learned clause, and its derivation.
#[derive(Drop)]
pub(crate) struct Learned {
    pub(crate) line: Line,
    pub(crate) clause: Clause,
    pub(crate) latest: Latest,
}

/// Learns a clause from a conflict: resolves it with the reasons of its literals, the latest first, until all literals
/// but one were false before the decision level that begins at `start` (the first unique implication point).
pub(crate) fn learn(
    alloc: Global,
    trail: &Trail,
    reasons: &[u32],
    clauses: &[Clause],
    start: usize,
    conflict: u32,
) -> Result<Learned, AllocError>
    requires conflict { (0 < conflict) × (conflict ≤ length clauses.now) }
    requires all_false { AllFalse (slice_index_or clauses.now (conflict - 1) []) trail.now.literals }
    requires paired { length reasons.now ≡ length trail.now.literals }
    requires reasons { HaveReasons clauses.now trail.now.literals reasons.now (start + 1) }
    requires saturated { IsSaturated clauses.now (take start trail.now.literals) }
    requires full { All IsFull clauses.now }
    ensures made { IfOk result (λ r. clause_of clauses.now r.line ≡ Some r.clause) }
    ensures adds { IfOk result (λ r. Adds clauses.now r.clause) }
    ensures consistent { IfOk result (λ _. IsConsistent trail.now) }
    ensures latest { IfOk result (λ r. IsLatest trail.now.literals r.clause r.latest) }
    ensures early { IfOk result (λ r. r.latest.rest ≤ start) }
{
    let mut clause = clauses[conflict as usize - 1].copy(alloc)?;
    let mut cuts: Vec<Cut> = Vec::new(alloc);
    // how long the trail was when all literals of the clause were false
    let mut below = trail.literals().len();
    'back: loop {
        let latest = find_latest(trail, clause.literals());
        if latest.rest <= start {
            return Ok(Learned {
                line: Line {
                    first: conflict,
                    cuts,
                },
                clause,
                latest,
            });
        }
        let reason = reasons[latest.place];
        clause = clause.resolvent(alloc, latest.literal, &clauses[reason as usize - 1])?;
        cuts.push(Cut {
            pivot: latest.literal,
            with: reason,
        })?;
        below = latest.place;
    }
}

/// Resolves a conflict without a decision with the reasons of its literals until the empty clause is left.
pub(crate) fn refute(
    alloc: Global,
    trail: &Trail,
    reasons: &[u32],
    clauses: &[Clause],
    conflict: u32,
) -> Result<Line, AllocError>
    requires conflict { (0 < conflict) × (conflict ≤ length clauses.now) }
    requires all_false { AllFalse (slice_index_or clauses.now (conflict - 1) []) trail.now.literals }
    requires paired { length reasons.now ≡ length trail.now.literals }
    requires reasons { HaveReasons clauses.now trail.now.literals reasons.now 0 }
    ensures { IfOk result (λ line. clause_of clauses.now line ≡ Some []) }
{
    let mut clause = clauses[conflict as usize - 1].copy(alloc)?;
    let mut cuts: Vec<Cut> = Vec::new(alloc);
    let mut below = trail.literals().len();
    'back: loop {
        if clause.literals().is_empty() {
            return Ok(Line {
                first: conflict,
                cuts,
            });
        }
        let latest = find_latest(trail, clause.literals());
        let reason = reasons[latest.place];
        clause = clause.resolvent(alloc, latest.literal, &clauses[reason as usize - 1])?;
        cuts.push(Cut {
            pivot: latest.literal,
            with: reason,
        })?;
        below = latest.place;
    }
}
