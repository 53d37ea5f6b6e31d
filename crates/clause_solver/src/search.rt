ghost use Rattle.std.specs.Prelude.{◌≡◌, ◌+◌, ◌^◌, ◌<◌, ◌++◌, ◌∷◌, [], ℕ, None, length, OnOk, IfOk};
ghost use Rattle.clause_form.specs.Clauses.{IsFull};
ghost use Rattle.clause_solver.specs.Propagation.{AreNamed};
ghost use Rattle.clause_solver.specs.Searching.{IsSearch, AtLevels};

use crate::occurrences::Occurrences;
use crate::order::Order;
use crate::propagate::visit;
use crate::trail::Trail;
use clause_form::Clause;
use std::alloc::{AllocError, Global};

/// The state of a search: clauses, the literals that hold, and why.
#[derive(Drop)]
pub(crate) struct Search {
    pub(crate) alloc: Global,
    pub(crate) trail: Trail,
    // for each literal on the trail its reason: the number of the clause that propagated it, or 0 for a decision
    pub(crate) reasons: Vec<u32>,
    // the given clauses, and after them the learned ones
    pub(crate) clauses: Vec<Clause>,
    pub(crate) occurrences: Occurrences,
    // for each decision level how many literals the trail had before its decision
    pub(crate) levels: Vec<usize>,
    // how many literals of the trail are propagated
    pub(crate) head: usize,
    // the number of a clause whose literals are all false, where one was found
    pub(crate) conflict: Option<u32>,
    pub(crate) order: Order,
}

impl Search {
    /// A search without clauses.
    pub(crate) fn new(alloc: Global, variables: u32) -> Result<Search, AllocError>
        requires { variables < 2 ^ 31 }
        ensures kept { IfOk result (λ search. IsSearch search) }
        ensures variables { IfOk result (λ search. search.trail.variables ≡ variables) }
        ensures clauses { IfOk result (λ search. search.clauses.items ≡ []) }
        ensures levels { IfOk result (λ search. search.levels.items ≡ []) }
    {
        Ok(Search {
            alloc,
            trail: Trail::new(alloc, variables)?,
            reasons: Vec::new(alloc),
            clauses: Vec::new(alloc),
            occurrences: Occurrences::new(alloc, variables)?,
            levels: Vec::new(alloc),
            head: 0,
            conflict: None,
            order: Order::new(alloc, variables)?,
        })
    }

    /// Adds a clause.
    pub(crate) fn insert(&mut self, clause: Clause) -> Result<(), AllocError>
        requires kept { IsSearch self.old }
        requires named { AreNamed self.old.trail clause }
        requires full { IsFull clause }
        requires at_levels { AtLevels self.old.trail.literals self.old.levels.items clause }
        requires few { length self.old.clauses.items + 1 < 2 ^ 32 }
        ensures kept { OnOk result (IsSearch self.new) }
        ensures variables { OnOk result (self.new.trail.variables ≡ self.old.trail.variables) }
        ensures clauses { OnOk result (self.new.clauses.items ≡ self.old.clauses.items ++ clause ∷ []) }
        ensures levels { OnOk result (self.new.levels.items ≡ self.old.levels.items) }
    {
        let number = self.clauses.as_slice().len() as u32 + 1;
        self.occurrences.add(clause.literals(), number)?;
        let is_false = visit(&mut self.trail, &mut self.reasons, &clause, number)?;
        self.clauses.push(clause)?;
        if is_false && self.conflict.is_none() {
            self.conflict = Some(number);
        }
        Ok(())
    }
}
