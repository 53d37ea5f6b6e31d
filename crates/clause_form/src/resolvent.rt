ghost use Rattle.std.specs.Prelude.{◌≡◌, IfOk, not};
ghost use Rattle.std.specs.List.{filter};
ghost use Rattle.clause_form.specs.Clauses.{has};
ghost use Rattle.clause_form.specs.Derivation.{without, union};

use std::alloc::{AllocError, Global};

// The literals but for one.
pub(crate) fn literals_without(
    alloc: Global,
    literals: &[i32],
    literal: i32,
) -> Result<Vec<i32>, AllocError>
    ensures { IfOk result (λ rest. rest.items ≡ without literal literals.now) }
{
    literals
        .iter()
        .copied()
        .filter(|l| *l != literal)
        .collect(alloc)
}

// The literals, and after them those of the others that aren't among them, but for one.
pub(crate) fn union_without(
    alloc: Global,
    mut literals: Vec<i32>,
    others: &[i32],
    literal: i32,
) -> Result<Vec<i32>, AllocError>
    ensures { IfOk result (λ all. all.items ≡ union literals.items (without literal others.now)) }
{
    let added = added(alloc, literals.as_slice(), others, literal)?;
    literals.extend_from_slice(added.as_slice())?;
    Ok(literals)
}

// Those of the others that aren't among the literals, but for one.
fn added(
    alloc: Global,
    literals: &[i32],
    others: &[i32],
    literal: i32,
) -> Result<Vec<i32>, AllocError>
    ensures { IfOk result (λ added.
        added.items ≡ filter (λ l. not (has l literals.now)) (without literal others.now)) }
{
    others
        .iter()
        .copied()
        .filter(|l| *l != literal)
        .filter(|l| !literals.contains(l))
        .collect(alloc)
}
