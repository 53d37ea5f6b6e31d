ghost use Rattle.std.specs.Prelude.{◌≡◌, ◌↔◌, ◌+◌, ◌<◌, ◌^◌, ◌++◌, ◌∷◌, [], IsTrue, OnOk, OnErr, length, vec_len};
ghost use Rattle.std.specs.List.{All};
ghost use Rattle.clause_form.specs.Clauses.{NamesWithin, Holds, listed};

use crate::Clause;
use std::alloc::{AllocError, Global};

/// Clauses over the variables from 1 to `variables`. The clauses are numbered from 1 too, and there are fewer than
/// 2^31 of each.
#[derive(Debug, Drop)]
pub struct Clauses {
    pub variables: u32,
    pub clauses: Vec<Clause>,
    ghost few_variables: { variables < 2 ^ 31 },
    ghost few_clauses: { vec_len clauses < 2 ^ 31 },
    ghost named: { All (NamesWithin variables) clauses.items },
}

impl Clauses {
    /// No clause yet over these variables. It takes no memory.
    pub fn new(alloc: Global, variables: u32) -> Clauses
        requires { variables < 2 ^ 31 }
        ensures variables { result.variables ≡ variables }
        ensures clauses { result.clauses.items ≡ [] }
    {
        Clauses {
            variables,
            clauses: Vec::new(alloc),
        }
    }

    /// Whether the clause names these variables alone.
    pub fn names(&self, clause: &Clause) -> bool
        ensures { IsTrue result ↔ NamesWithin self.now.variables clause.now }
    {
        for literal in clause.literals() {
            if literal.unsigned_abs() > self.variables {
                return false;
            }
        }
        true
    }

    /// Adds a clause after the others. After an error the clauses are as before.
    pub fn push(&mut self, clause: Clause) -> Result<(), AllocError>
        requires named { NamesWithin self.old.variables clause }
        requires few { vec_len self.old.clauses + 1 < 2 ^ 31 }
        ensures variables { self.new.variables ≡ self.old.variables }
        ensures ok { OnOk result (self.new.clauses.items ≡ self.old.clauses.items ++ clause ∷ []) }
        ensures err { OnErr result (self.new.clauses.items ≡ self.old.clauses.items) }
    {
        self.clauses.push(clause)?;
        Ok(())
    }

    /// Whether each clause has a literal that is true under the assignment, which has a value for each variable,
    /// that of variable 1 first. It takes no memory.
    pub fn satisfied(&self, assignment: &[bool]) -> bool
        requires { length assignment.now ≡ self.now.variables }
        ensures { IsTrue result ↔ (Holds self.now.clauses.items (listed assignment.now)) }
    {
        for clause in &self.clauses {
            if !clause.satisfied(assignment) {
                return false;
            }
        }
        true
    }
}
