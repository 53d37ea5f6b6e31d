ghost use Rattle.std.specs.Prelude.{◌≡◌, ◌+◌, ◌<◌, ◌≤◌, None, length, OnOk, IfNone};
ghost use Rattle.clause_solver.specs.Assigned.{IsChoice, NoneIsOpen};
ghost use Rattle.clause_solver.specs.Searching.{IsSearch, SearchesOn};

use crate::propagate::propagate_one;
use crate::search::Search;
use clause_form::negated;
use std::alloc::AllocError;

impl Search {
    /// Decides and propagates up to a conflict, or until each variable has a value.
    pub(crate) fn descend(&mut self) -> Result<(), AllocError>
        requires kept { IsSearch self.old }
        requires quiet { self.old.conflict ≡ None }
        ensures kept { OnOk result (IsSearch self.new) }
        ensures continues { OnOk result (SearchesOn self.old self.new) }
        ensures propagated { OnOk result (IfNone self.new.conflict (self.new.head ≡ length self.new.trail.literals)) }
        ensures decided { OnOk result (IfNone self.new.conflict (NoneIsOpen self.new.trail)) }
    {
        loop {
            self.propagate()?;
            if self.conflict.is_some() {
                return Ok(());
            }
            let Some(literal) = self.order.pick(&self.trail) else {
                return Ok(());
            };
            self.decide(literal)?;
        }
    }

    // Propagates the literals that hold up to a conflict, or until nothing is left to propagate.
    fn propagate(&mut self) -> Result<(), AllocError>
        requires kept { IsSearch self.old }
        requires quiet { self.old.conflict ≡ None }
        ensures kept { OnOk result (IsSearch self.new) }
        ensures continues { OnOk result (SearchesOn self.old self.new) }
        ensures propagated { OnOk result (IfNone self.new.conflict (self.new.head ≡ length self.new.trail.literals)) }
    {
        while self.head < self.trail.literals().len() {
            self.propagate_next()?;
            if self.conflict.is_some() {
                return Ok(());
            }
        }
        Ok(())
    }

    // Propagates one more literal.
    fn propagate_next(&mut self) -> Result<(), AllocError>
        requires kept { IsSearch self.old }
        requires quiet { self.old.conflict ≡ None }
        requires more { self.old.head < length self.old.trail.literals }
        ensures kept { OnOk result (IsSearch self.new) }
        ensures continues { OnOk result (SearchesOn self.old self.new) }
        ensures next { OnOk result (IfNone self.new.conflict (self.new.head ≡ self.old.head + 1)) }
    {
        let literal = self.trail.literals()[self.head];
        let occurrences = self.occurrences.of(negated(literal));
        self.conflict = propagate_one(
            &mut self.trail,
            &mut self.reasons,
            self.clauses.as_slice(),
            occurrences,
            self.head,
        )?;
        if self.conflict.is_none() {
            self.head += 1;
        }
        Ok(())
    }

    // Begins a decision level with an open literal.
    fn decide(&mut self, literal: i32) -> Result<(), AllocError>
        requires kept { IsSearch self.old }
        requires quiet { self.old.conflict ≡ None }
        requires propagated { self.old.head ≡ length self.old.trail.literals }
        requires choice { IsChoice self.old.trail literal }
        ensures kept { OnOk result (IsSearch self.new) }
        ensures quiet { OnOk result (self.new.conflict ≡ None) }
        ensures continues { OnOk result (SearchesOn self.old self.new) }
        ensures few { length self.old.trail.literals ≤ self.old.trail.variables }
        ensures longer { OnOk result (length self.new.trail.literals ≡ length self.old.trail.literals + 1) }
    {
        self.levels.push(self.trail.literals().len())?;
        self.reasons.push(0)?;
        self.trail.push(literal)?;
        Ok(())
    }
}
