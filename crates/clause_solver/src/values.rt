ghost use Rattle.std.specs.Prelude.{IfOk};
ghost use Rattle.clause_solver.specs.Assigned.{IsConsistent};
ghost use Rattle.clause_solver.specs.Searching.{AreValues};

use crate::trail::{Trail, literal_at};
use std::alloc::{AllocError, Global};

/// The value of each variable by the literals that hold, that of variable 1 first.
pub(crate) fn values(alloc: Global, trail: &Trail) -> Result<Vec<bool>, AllocError>
    ensures values { IfOk result (λ values. AreValues trail.now values.items) }
    ensures consistent { IsConsistent trail.now }
{
    let mut values = Vec::new(alloc);
    for index in 0..trail.variables() {
        values.push(trail.holds(literal_at(index)))?;
    }
    Ok(values)
}
