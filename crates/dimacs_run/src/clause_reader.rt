ghost use Rattle.std.specs.Prelude.{◌≡◌, ◌^◌, ◌<◌, ◌≤◌, true, unsigned_abs};
ghost use Rattle.std.specs.List.{All};
ghost use Rattle.clause_form.specs.Clauses.{is_literal, NamesWithin};

use clause_form::{Clause, Clauses};
use std::alloc::{AllocError, Global};
use std::mem;

/// Clauses as they are read, literal by literal.
#[derive(Drop)]
pub(crate) struct ClauseReader {
    alloc: Global,
    pub(crate) variables: u32,
    clauses: Vec<Clause>,
    // the clause that isn't ended yet
    current: Clause,
    pub(crate) has_begun: bool,
    ghost few: { variables < 2 ^ 31 },
    ghost named: { All (NamesWithin variables) clauses.items },
    ghost current_named: { NamesWithin variables current },
}

impl ClauseReader {
    /// Before the first literal.
    pub(crate) fn new(alloc: Global, variables: u32) -> Self
        requires { variables < 2 ^ 31 }
    {
        ClauseReader {
            alloc,
            variables,
            clauses: Vec::new(alloc),
            current: Clause::empty(alloc),
            has_begun: false,
        }
    }

    /// How many clauses are ended.
    pub(crate) fn count(&self) -> usize {
        self.clauses.len()
    }

    /// Adds a literal to the clause that isn't ended yet. One that is there already isn't added again.
    pub(crate) fn add(mut self, literal: i32) -> Result<Self, AllocError>
        requires literal { is_literal literal ≡ true }
        requires named { unsigned_abs literal ≤ self.variables }
    {
        self.current.insert(literal)?;
        self.has_begun = true;
        Ok(self)
    }

    /// Ends the clause.
    pub(crate) fn end(mut self) -> Result<Self, AllocError> {
        let empty = Clause::empty(self.alloc);
        let ended = mem::replace(&mut self.current, empty);
        self.clauses.push(ended)?;
        self.has_begun = false;
        Ok(self)
    }

    /// The clauses that are ended, where they are fewer than 2^31.
    pub(crate) fn into_clauses(self) -> Option<Clauses> {
        if self.clauses.len() >= 1 << 31 {
            return None;
        }
        Some(Clauses {
            variables: self.variables,
            clauses: self.clauses,
        })
    }
}
