ghost use Rattle.std.specs.Prelude.{◌≡◌, [], IsTrue, List, IfOk, OnOk, OnErr, ℤ, neg_ℤ, length, true};
ghost use Rattle.std.specs.List.{list_any, list_all};
ghost use Rattle.clause_form.specs.Clauses.{is_literal, is_clause, has, inserted, value, listed, NamesWithin};
ghost use Rattle.clause_form.specs.Derivation.{resolvent};

use crate::literal::{is_true, negated};
use crate::resolvent::{literals_without, union_without};
use std::alloc::{AllocError, Global};
use std::marker::Model;

/// A list of literals without repeats, each a variable's number or its negation.
#[derive(Debug, Drop)]
pub struct Clause {
    literals: Vec<i32>,
}

impl Model for Clause {
    ghost use Rattle.std.specs.Prelude.{◌≡◌, List, ℤ, true};
    ghost use Rattle.clause_form.specs.Clauses.{is_clause};

    ghost Value = { List ℤ };

    ghost view = { λ clause. clause.literals.items };

    ghost invariant = { λ clause. is_clause clause.literals.items ≡ true };
}

impl Clause {
    /// The clause of these literals.
    pub fn new(alloc: Global, literals: &[i32]) -> Result<Clause, AllocError>
        requires { is_clause literals.now ≡ true }
        ensures { IfOk result (λ clause. clause ≡ literals.now) }
    {
        let literals = literals.to_vec(alloc)?;
        Ok(Clause { literals })
    }

    /// The clause without literals, which no assignment satisfies. It takes no memory.
    pub fn empty(alloc: Global) -> Clause
        ensures { result ≡ [] }
    {
        Clause {
            literals: Vec::new(alloc),
        }
    }

    /// Adds a literal after the others, unless the clause has it. After an error the clause is as before.
    pub fn insert(&mut self, literal: i32) -> Result<(), AllocError>
        requires { IsTrue (is_literal literal) }
        ensures ok { OnOk result (self.new ≡ inserted literal self.old) }
        ensures err { OnErr result (self.new ≡ self.old) }
    {
        if !self.has(literal) {
            self.literals.push(literal)?;
        }
        Ok(())
    }

    /// The literals in their order.
    pub fn literals(&self) -> &[i32]
        ensures value { result.now ≡ self.now }
        ensures clause { is_clause result.now ≡ true }
    {
        self.literals.as_slice()
    }

    /// Whether the clause has the literal.
    pub fn has(&self, literal: i32) -> bool
        ensures value { result ≡ has literal self.now }
        ensures literal { IsTrue result → IsTrue (is_literal literal) }
    {
        self.literals.as_slice().contains(&literal)
    }

    /// The same clause in memory of its own.
    pub fn copy(&self, alloc: Global) -> Result<Clause, AllocError>
        ensures { IfOk result (λ clause. clause ≡ self.now) }
    {
        let literals = self.literals.as_slice().to_vec(alloc)?;
        Ok(Clause { literals })
    }

    /// Whether a literal of the clause is true under the assignment. It takes no memory.
    pub fn satisfied(&self, assignment: &[bool]) -> bool
        requires { NamesWithin (length assignment.now) self.now }
        ensures { result ≡ list_any (value (listed assignment.now)) self.now }
    {
        any_true(self.literals.as_slice(), assignment)
    }

    /// The resolvent of two clauses at a pivot: the first clause without the pivot, together with the second
    /// without the pivot's negation.
    pub fn resolvent(&self, alloc: Global, pivot: i32, with: &Clause) -> Result<Clause, AllocError>
        requires here { IsTrue (has pivot self.now) }
        requires there { IsTrue (has (neg_ℤ pivot) with.now) }
        ensures { IfOk result (λ clause. clause ≡ resolvent self.now pivot with.now) }
    {
        let literals = literals_without(alloc, self.literals.as_slice(), pivot)?;
        let literals = union_without(alloc, literals, with.literals.as_slice(), negated(pivot))?;
        Ok(Clause { literals })
    }
}

fn any_true(literals: &[i32], assignment: &[bool]) -> bool
    requires literals { list_all is_literal literals.now ≡ true }
    requires named { NamesWithin (length assignment.now) literals.now }
    ensures { result ≡ list_any (value (listed assignment.now)) literals.now }
{
    for literal in literals {
        if is_true(*literal, assignment) {
            return true;
        }
    }
    false
}
