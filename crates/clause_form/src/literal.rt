ghost use Rattle.std.specs.Prelude.{◌≡◌, ◌≤◌, IsTrue, neg_ℤ, unsigned_abs, length};
ghost use Rattle.clause_form.specs.Clauses.{is_literal, value, listed};

/// The literal of the same variable with the other sign.
pub fn negated(literal: i32) -> i32
    requires { IsTrue (is_literal literal) }
    ensures { result ≡ neg_ℤ literal }
{
    -literal
}

// Whether the literal is true under the assignment.
pub(crate) fn is_true(literal: i32, assignment: &[bool]) -> bool
    requires literal { IsTrue (is_literal literal) }
    requires named { unsigned_abs literal ≤ length assignment.now }
    ensures { result ≡ value (listed assignment.now) literal }
{
    if literal > 0 {
        assignment[literal as usize - 1]
    } else {
        !assignment[(-literal) as usize - 1]
    }
}
