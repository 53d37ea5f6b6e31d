ghost use Rattle.std.specs.Prelude.{◌≡◌, ◌^◌, ◌+◌, ◌<◌, ◌*◌, ◌≤◌, true, length, unsigned_abs, IfOk, OnOk, List, []};
ghost use Rattle.clause_form.specs.Clauses.{is_literal};
ghost use Rattle.clause_solver.specs.Occurrences.{literal_index, numbers_in, AreWithin, Pushed, Noted, IsEmptyOf};

use crate::trail::variable_index;
use std::alloc::{AllocError, Global};

/// For each literal its occurrences: the numbers of the clauses that have it.
#[derive(Drop)]
pub(crate) struct Occurrences {
    // the occurrences of variable 1, of its negation, of variable 2, and so on
    pub(crate) lists: Vec<Vec<u32>>,
}

impl Occurrences {
    /// No occurrence yet, for literals of that many variables.
    pub(crate) fn new(alloc: Global, variables: u32) -> Result<Occurrences, AllocError>
        requires { variables < 2 ^ 31 }
        ensures { IfOk result (λ occurrences. IsEmptyOf variables occurrences.lists.items) }
    {
        let mut lists = Vec::new(alloc);
        for _ in 0..2 * variables as usize {
            lists.push(Vec::new(alloc))?;
        }
        Ok(Occurrences { lists })
    }

    /// The numbers of the clauses that have the literal, counted from 1.
    pub(crate) fn of(&self, literal: i32) -> &[u32]
        requires literal { is_literal literal ≡ true }
        requires within { 2 * unsigned_abs literal ≤ length self.now.lists.items }
        ensures { result.now ≡ numbers_in self.now.lists.items (literal_index literal) }
    {
        self.lists[literal_index(literal)].as_slice()
    }

    /// Adds the clause with this number to the occurrences of these literals.
    pub(crate) fn add(&mut self, literals: &[i32], number: u32) -> Result<(), AllocError>
        requires { AreWithin (length self.old.lists.items) literals.now }
        ensures { OnOk result (Noted self.old.lists.items self.new.lists.items literals.now number) }
    {
        for literal in literals {
            self.push(*literal, number)?;
        }
        Ok(())
    }

    fn push(&mut self, literal: i32, number: u32) -> Result<(), AllocError>
        requires literal { is_literal literal ≡ true }
        requires within { 2 * unsigned_abs literal ≤ length self.old.lists.items }
        ensures { OnOk result (Pushed self.old.lists.items self.new.lists.items (literal_index literal) number) }
    {
        self.lists[literal_index(literal)].push(number)?;
        Ok(())
    }
}

// The index of a literal's occurrences.
fn literal_index(literal: i32) -> usize
    requires literal { is_literal literal ≡ true }
    ensures value { result ≡ literal_index literal }
    ensures within { result < 2 * unsigned_abs literal }
{
    let first = 2 * variable_index(literal);
    if literal > 0 { first } else { first + 1 }
}
