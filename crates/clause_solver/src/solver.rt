ghost use Rattle.std.specs.Prelude.{◌≡◌, ◌+◌, ◌^◌, ◌<◌, ◌≤◌, Some, [], length, IfOk, IfSome, IfNone};
ghost use Rattle.std.specs.List.{All};
ghost use Rattle.clause_form.specs.Clauses.{IsFull, Holds, listed};
ghost use Rattle.clause_form.specs.Derivation.{numbered, Refutes, Spends};
ghost use Rattle.clause_solver.specs.Searching.{IsSearch};
ghost use Rattle.clause_solver.specs.Solving.{OnSat, OnUnsat, OnSpent};

use crate::Solved;
use crate::search::Search;
use crate::turn::Turn;
use crate::values::values;
use clause_form::{Clause, Clauses, Line};
use std::alloc::{AllocError, Global};

/// Looks for an assignment that satisfies the clauses, and learns at most `limit` clauses on the way, which is 1 to
/// 1,000,000,000: by decisions and unit propagation (DPLL), and by a clause from each conflict (CDCL, first unique
/// implication point). It answers `Spent` where the limit is used up, and an error only where memory ran out.
///
/// A line of a log names clauses by their numbers, from 1, those of the lines after the given ones.
pub fn solve(alloc: Global, clauses: &Clauses, limit: u32) -> Result<Solved, AllocError>
    requires { (1 ≤ limit) × (limit ≤ 1000000000) }
    ensures values { IfOk result (λ solved. OnSat solved (λ values. length values ≡ clauses.now.variables)) }
    ensures sat { IfOk result (λ solved. OnSat solved (λ values. Holds clauses.now.clauses.items (listed values))) }
    ensures unsat { IfOk result (λ solved. OnUnsat solved (Refutes clauses.now.clauses.items)) }
    ensures lines { IfOk result (λ solved. OnUnsat solved (λ log. length log ≤ limit + 1)) }
    ensures spent { IfOk result (λ solved. OnSpent solved (λ log. Spends clauses.now.clauses.items log limit)) }
    ensures enough { 3 ^ clauses.now.variables ≤ limit → IfOk result (λ solved. OnSpent solved (λ _. ⊥)) }
{
    match first_empty(clauses.clauses.as_slice()) {
        Some(first) => {
            let mut log = Vec::new(alloc);
            log.push(Line {
                first,
                cuts: Vec::new(alloc),
            })?;
            Ok(Solved::Unsat(log))
        }
        None => search(alloc, clauses, limit),
    }
}

// The number of the first clause that is empty.
fn first_empty(clauses: &[Clause]) -> Option<u32>
    requires { length clauses.now < 2 ^ 31 }
    ensures some { IfSome result (λ number. numbered clauses.now number ≡ Some []) }
    ensures none { IfNone result (All IsFull clauses.now) }
{
    let mut number: u32 = 0;
    for clause in clauses {
        number += 1;
        if clause.literals().is_empty() {
            return Some(number);
        }
    }
    None
}

// The answer on clauses none of which is empty.
fn search(alloc: Global, clauses: &Clauses, limit: u32) -> Result<Solved, AllocError>
    requires limit { limit ≤ 1000000000 }
    requires full { All IsFull clauses.now.clauses.items }
    ensures values { IfOk result (λ solved. OnSat solved (λ values. length values ≡ clauses.now.variables)) }
    ensures sat { IfOk result (λ solved. OnSat solved (λ values. Holds clauses.now.clauses.items (listed values))) }
    ensures unsat { IfOk result (λ solved. OnUnsat solved (Refutes clauses.now.clauses.items)) }
    ensures lines { IfOk result (λ solved. OnUnsat solved (λ log. length log ≤ limit + 1)) }
    ensures spent { IfOk result (λ solved. OnSpent solved (λ log. Spends clauses.now.clauses.items log limit)) }
    ensures enough { 3 ^ clauses.now.variables ≤ limit → IfOk result (λ solved. OnSpent solved (λ _. ⊥)) }
{
    let mut search = start(alloc, clauses)?;
    let mut log = Vec::new(alloc);
    for _ in 0..limit {
        match search.turn()? {
            Turn::Satisfied => return Ok(Solved::Sat(values(alloc, &search.trail)?)),
            Turn::Refuted(line) => {
                log.push(line)?;
                return Ok(Solved::Unsat(log));
            }
            Turn::Learned(line) => log.push(line)?,
        }
    }
    Ok(Solved::Spent(log))
}

// The search that has the clauses.
fn start(alloc: Global, clauses: &Clauses) -> Result<Search, AllocError>
    requires { All IsFull clauses.now.clauses.items }
    ensures kept { IfOk result (λ search. IsSearch search) }
    ensures variables { IfOk result (λ search. search.trail.variables ≡ clauses.now.variables) }
    ensures clauses { IfOk result (λ search. search.clauses.items ≡ clauses.now.clauses.items) }
{
    let mut search = Search::new(alloc, clauses.variables)?;
    for clause in &clauses.clauses {
        let literals = clause.literals();
        search.insert(Clause::new(alloc, literals)?)?;
    }
    Ok(search)
}
