ghost use Rattle.std.specs.Prelude.{◌≡◌, ◌+◌, ◌-◌, ◌^◌, ◌<◌, ◌≤◌, None, length, slice_index, OnOk, IfOk, IfNone};
ghost use Rattle.clause_solver.specs.Assigned.{NoneIsOpen};
ghost use Rattle.clause_solver.specs.Learning.{IsConflict};
ghost use Rattle.clause_solver.specs.Searching.{IsSearch, SearchesOn, IsPopped, Backjumped, Grew, Took, IsSettled};

use crate::learn::{Learned, learn, refute};
use crate::order::Order;
use crate::search::Search;
use clause_form::{Clause, Line};
use std::alloc::AllocError;

/// What one turn of the search came to: propagation and decisions up to a conflict, and what was learned from it.
#[derive(Drop)]
pub(crate) enum Turn {
    /// The literals that hold satisfy the clauses.
    Satisfied,
    /// This line makes the empty clause.
    Refuted(Line),
    /// This line makes the learned clause, which now stands after the others.
    Learned(Line),
}

impl Search {
    /// Searches up to the next conflict and learns from it, or until the literals that hold satisfy the clauses.
    pub(crate) fn turn(&mut self) -> Result<Turn, AllocError>
        requires kept { IsSearch self.old }
        requires few { length self.old.clauses.items + 1 < 2 ^ 32 }
        ensures kept { OnOk result (IsSearch self.new) }
        ensures variables { OnOk result (self.new.trail.variables ≡ self.old.trail.variables) }
        ensures took { IfOk result (λ turn. Took self.old self.new turn) }
    {
        self.settle()?;
        let Some(conflict) = self.conflict else {
            return Ok(Turn::Satisfied);
        };
        match self.levels.as_slice().last().copied() {
            None => {
                let line = refute(
                    self.alloc,
                    &self.trail,
                    self.reasons.as_slice(),
                    self.clauses.as_slice(),
                    conflict,
                )?;
                Ok(Turn::Refuted(line))
            }
            Some(start) => Ok(Turn::Learned(self.learn_from(conflict, start)?)),
        }
    }

    // Searches up to a conflict, unless there is one, or until each variable has a value.
    fn settle(&mut self) -> Result<(), AllocError>
        requires kept { IsSearch self.old }
        ensures kept { OnOk result (IsSearch self.new) }
        ensures continues { OnOk result (SearchesOn self.old self.new) }
        ensures settled { OnOk result (IfNone self.new.conflict (IsSettled self.new)) }
    {
        if self.conflict.is_some() {
            return Ok(());
        }
        self.descend()
    }

    // Learns a clause from a conflict, and backjumps to where it can be used.
    fn learn_from(&mut self, conflict: u32, start: usize) -> Result<Line, AllocError>
        requires kept { IsSearch self.old }
        requires few { length self.old.clauses.items + 1 < 2 ^ 32 }
        requires conflict { IsConflict self.old.clauses.items self.old.trail.literals conflict }
        requires some { 0 < length self.old.levels.items }
        requires start { start ≡ slice_index self.old.levels.items (length self.old.levels.items - 1) }
        ensures kept { OnOk result (IsSearch self.new) }
        ensures variables { OnOk result (self.new.trail.variables ≡ self.old.trail.variables) }
        ensures grew { IfOk result (λ line. Grew self.old self.new line) }
    {
        let learned = learn(
            self.alloc,
            &self.trail,
            self.reasons.as_slice(),
            self.clauses.as_slice(),
            start,
            conflict,
        )?;
        raise(&mut self.order, self.clauses.as_slice(), &learned)?;
        let Learned {
            line,
            clause,
            latest,
        } = learned;
        self.backjump(latest.rest)?;
        self.insert(clause)?;
        Ok(line)
    }

    // Backjumps: takes back the decision levels that begin at a trail of `rest` literals or more.
    fn backjump(&mut self, rest: usize) -> Result<(), AllocError>
        requires kept { IsSearch self.old }
        requires some { 0 < length self.old.levels.items }
        requires rest { rest ≤ slice_index self.old.levels.items (length self.old.levels.items - 1) }
        ensures kept { OnOk result (IsSearch self.new) }
        ensures variables { OnOk result (self.new.trail.variables ≡ self.old.trail.variables) }
        ensures clauses { OnOk result (self.new.clauses.items ≡ self.old.clauses.items) }
        ensures back { OnOk result (Backjumped self.old self.new rest) }
    {
        let start = pop_levels(&mut self.levels, rest);
        self.order.release(self.trail.literals(), start)?;
        self.trail.truncate(start);
        self.reasons.truncate(start);
        self.head = start;
        self.conflict = None;
        Ok(())
    }
}

// Takes off the decision levels that begin at a trail of `rest` literals or more, and answers where the first of them
// begins.
fn pop_levels(levels: &mut Vec<usize>, rest: usize) -> usize
    requires some { 0 < length levels.old.items }
    requires rest { rest ≤ slice_index levels.old.items (length levels.old.items - 1) }
    ensures { IsPopped levels.old.items levels.new.items rest result }
{
    let mut count = levels.as_slice().len() - 1;
    while count > 0 && levels[count - 1] >= rest {
        count -= 1;
    }
    let start = levels[count];
    levels.truncate(count);
    start
}

// Raises the activities of the variables that took part in a conflict.
fn raise(order: &mut Order, clauses: &[Clause], learned: &Learned) -> Result<(), AllocError> {
    for cut in &learned.line.cuts {
        if let Some(clause) = clauses.get((cut.with as usize).wrapping_sub(1)) {
            order.raise(clause.literals());
        }
    }
    order.raise(learned.clause.literals());
    order.age()
}
