ghost use Rattle.std.specs.Prelude.{◌≡◌, ◌+◌, ◌<◌, ◌≤◌, ◌^◌, ◌++◌, ◌∷◌, [], ℤ, neg_ℤ, ◌-◌, pos, true, false, length, List, OnOk, OnErr, IfOk, take, unsigned_abs, slice_index_or, negsuc};
ghost use Rattle.std.specs.Ordering.{int_eq};
ghost use Rattle.clause_form.specs.Clauses.{has, is_literal};

use clause_form::negated;
use std::alloc::{AllocError, Global};
use std::marker::Model;

/// The trail: the literals that hold, in the order in which they were decided or propagated, at most one of each
/// variable.
#[derive(Drop)]
pub(crate) struct Trail {
    literals: Vec<i32>,
    // for each variable one more than the index of its literal on the trail, or 0 where it is open
    places: Vec<u32>,
}

impl Model for Trail {
    ghost use Rattle.clause_solver.specs.Assigned.{Assigned};

    ghost Value = { Assigned };

    ghost use Rattle.std.specs.Prelude.{length};
    ghost use Rattle.clause_solver.specs.Assigned.{IsTrail};

    ghost view = { λ t. record { variables = length t.places.items; literals = t.literals.items } };

    ghost invariant = { λ t. IsTrail t.literals.items t.places.items };
}

/// The index of a literal's variable among all variables, from 0.
pub(crate) fn variable_index(literal: i32) -> usize
    requires { is_literal literal ≡ true }
    ensures { result + 1 ≡ unsigned_abs literal }
{
    if literal > 0 {
        literal as usize - 1
    } else {
        (-literal) as usize - 1
    }
}

/// The positive literal of the variable with that index.
pub(crate) fn literal_at(index: usize) -> i32
    requires { index + 1 < 2 ^ 31 }
    ensures literal { is_literal result ≡ true }
    ensures value { result ≡ pos (index + 1) }
    ensures variable { unsigned_abs result ≡ index + 1 }
{
    index as i32 + 1
}

fn same_literal(one: i32, other: i32) -> bool
    ensures { result ≡ int_eq one other }
{
    one == other
}

impl Trail {
    ghost use Rattle.clause_solver.specs.Assigned.{IsConsistent, IsOpen, Named};

    pub(crate) fn new(alloc: Global, variables: u32) -> Result<Trail, AllocError>
        requires { variables < 2 ^ 31 }
        ensures { IfOk result (λ t. (t.variables ≡ variables) × (t.literals ≡ [])) }
    {
        let places = vec![in alloc; 0u32; variables as usize]?;
        Ok(Trail {
            literals: Vec::new(alloc),
            places,
        })
    }

    pub(crate) fn variables(&self) -> usize
        ensures value { result ≡ self.now.variables }
        ensures few { result < 2 ^ 31 }
        ensures consistent { IsConsistent self.now }
    {
        self.places.len()
    }

    pub(crate) fn literals(&self) -> &[i32]
        ensures value { result.now ≡ self.now.literals }
        ensures consistent { IsConsistent self.now }
    {
        self.literals.as_slice()
    }

    /// Whether the literal holds.
    pub(crate) fn holds(&self, literal: i32) -> bool
        requires { Named self.now literal }
        ensures value { result ≡ has literal self.now.literals }
        ensures consistent { IsConsistent self.now }
    {
        let place = self.places[variable_index(literal)];
        place != 0 && same_literal(self.literals[place as usize - 1], literal)
    }

    /// Whether neither the literal nor its negation holds.
    pub(crate) fn is_open(&self, literal: i32) -> bool
        requires { Named self.now literal }
        ensures { result ≡ IsOpen self.now literal }
    {
        self.places[variable_index(literal)] == 0
    }

    /// The index on the trail of a literal that holds.
    pub(crate) fn place(&self, literal: i32) -> usize
        requires { has literal self.now.literals ≡ true }
        ensures within { result < length self.now.literals }
        ensures at { slice_index_or self.now.literals result literal ≡ literal }
    {
        self.places[variable_index(literal)] as usize - 1
    }

    /// Puts a literal of an open variable on the trail, so that it holds.
    pub(crate) fn push(&mut self, literal: i32) -> Result<(), AllocError>
        requires named { Named self.old literal }
        requires open { IsOpen self.old literal ≡ true }
        ensures variables { self.new.variables ≡ self.old.variables }
        ensures ok { OnOk result (self.new.literals ≡ self.old.literals ++ literal ∷ []) }
        ensures err { OnErr result (self.new.literals ≡ self.old.literals) }
    {
        self.literals.push(literal)?;
        self.places[variable_index(literal)] = self.literals.len() as u32;
        Ok(())
    }

    /// Leaves the first `count` literals on the trail; the variables of the others are open again.
    pub(crate) fn truncate(&mut self, count: usize)
        requires { count ≤ length self.old.literals }
        ensures variables { self.new.variables ≡ self.old.variables }
        ensures literals { self.new.literals ≡ take count self.old.literals }
    {
        while self.literals.len() > count {
            self.drop_last();
        }
    }

    fn drop_last(&mut self)
        requires { 0 < length self.old.literals }
        ensures variables { self.new.variables ≡ self.old.variables }
        ensures literals { self.new.literals ≡ take (length self.old.literals - 1) self.old.literals }
    {
        if let Some(literal) = self.literals.pop() {
            self.places[variable_index(literal)] = 0;
        }
    }
}
