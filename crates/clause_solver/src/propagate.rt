ghost use Rattle.std.specs.Prelude.{◌≡◌, ◌+◌, ◌-◌, ◌<◌, ◌≤◌, ◌≢◌, ℤ, neg_ℤ, pos, true, false, length, List, IfOk, IfSome, IfNone, OnOk, take, slice_index_or, []};
ghost use Rattle.std.specs.Bool.{OnTrue, OnFalse};
ghost use Rattle.std.specs.List.{All};
ghost use Rattle.clause_form.specs.Clauses.{has, is_literal};
ghost use Rattle.clause_form.specs.Derivation.{HasUnits};
ghost use Rattle.clause_solver.specs.Assigned.{at};
ghost use Rattle.clause_solver.specs.Learning.{AllFalse, IsConflict};
ghost use Rattle.clause_solver.specs.Propagation.{IsPropagated, AreReasons, KeepsDecisions, AreNamed, Visited, Extends, AreNumbers, OccurrencesOf};

use crate::trail::Trail;
use clause_form::{Clause, negated};
use std::alloc::AllocError;

/// Puts the clause's unit literal on the trail, with the clause as its reason, where just one literal isn't false.
/// Answers whether the clause is a conflict: all its literals are false.
pub(crate) fn visit(
    trail: &mut Trail,
    reasons: &mut Vec<u32>,
    clause: &Clause,
    number: u32,
) -> Result<bool, AllocError>
    requires { AreNamed trail.old clause.now }
    ensures variables { trail.new.variables ≡ trail.old.variables }
    ensures change { OnOk result
        (Visited trail.old.literals trail.new.literals reasons.old.items reasons.new.items clause.now number) }
    ensures conflict { IfOk result (λ b. OnTrue b (AllFalse clause.now trail.new.literals)) }
    ensures units { IfOk result (λ b. OnFalse b (HasUnits (λ l. has l trail.new.literals) clause.now)) }
{
    let literals = clause.literals();
    let mut unit: Option<i32> = None;
    for literal in literals {
        if !trail.holds(negated(*literal)) {
            if unit.is_some() || trail.holds(*literal) {
                return Ok(false);
            }
            unit = Some(*literal);
        }
    }
    match unit {
        None => Ok(true),
        Some(literal) => {
            reasons.push(number)?;
            trail.push(literal)?;
            Ok(false)
        }
    }
}

/// Propagates the literal at `head` of the trail: visits the occurrences of its negation up to a conflict. Answers the
/// number of the clause that is the conflict.
pub(crate) fn propagate_one(
    trail: &mut Trail,
    reasons: &mut Vec<u32>,
    clauses: &[Clause],
    occurrences: &[u32],
    head: usize,
) -> Result<Option<u32>, AllocError>
    requires head { head < length trail.old.literals }
    requires named { All (AreNamed trail.old) clauses.now }
    requires numbers { AreNumbers (length clauses.now) occurrences.now }
    requires occurrences { OccurrencesOf clauses.now (neg_ℤ (at trail.old.literals head)) occurrences.now }
    requires paired { length reasons.old.items ≡ length trail.old.literals }
    requires reasons { AreReasons clauses.now trail.old.literals reasons.old.items }
    requires propagated { All (IsPropagated head trail.old.literals) clauses.now }
    ensures variables { trail.new.variables ≡ trail.old.variables }
    ensures grown { OnOk result (Extends trail.old.literals trail.new.literals) }
    ensures paired { OnOk result (length reasons.new.items ≡ length trail.new.literals) }
    ensures reasons { OnOk result (AreReasons clauses.now trail.new.literals reasons.new.items) }
    ensures decisions { OnOk result (KeepsDecisions reasons.old.items reasons.new.items) }
    ensures conflict { IfOk result (λ o. IfSome o (λ k. IsConflict clauses.now trail.new.literals k)) }
    ensures propagated { IfOk result (λ o. IfNone o (All (IsPropagated (head + 1) trail.new.literals) clauses.now)) }
{
    for number in occurrences {
        if visit(trail, reasons, &clauses[*number as usize - 1], *number)? {
            return Ok(Some(*number));
        }
    }
    Ok(None)
}
