ghost use Rattle.std.specs.Prelude.{◌≡◌, option_map};
ghost use Rattle.primitive_operators.specs.Operators.{viewed};
ghost use Rattle.evaluation.specs.Values.{computed_by, scalar_of, value_of};

use core_tree::BuiltIn;
use evaluation::Computed;
use heap_arena::Cell;
use primitive_operators::{Applied, Scalar, ScalarRef};

// The value, where it isn't an object.
pub fn scalar(v: &Cell<u32>) -> Option<ScalarRef>
    ensures { option_map viewed result ≡ scalar_of v.now }
{
    match v {
        Cell::Int(n) => Some(ScalarRef::Int(*n)),
        Cell::Bool(b) => Some(ScalarRef::Bool(*b)),
        Cell::Null => Some(ScalarRef::Null),
        Cell::Ref(_) => None,
        Cell::Text(text) => Some(ScalarRef::Text(text)),
    }
}

// What an operator that was applied to values computes.
pub fn computed(applied: Applied) -> Computed
    ensures { result ≡ computed_by applied }
{
    match applied {
        Applied::Gives(v) => Computed::Gives(value(v)),
        Applied::DividesByZero => Computed::Traps(BuiltIn::ArithmeticException),
        Applied::NoMeaning => Computed::NoMeaning,
    }
}

// The value.
fn value(v: Scalar) -> Cell<u32>
    ensures { result ≡ value_of v }
{
    match v {
        Scalar::Int(n) => Cell::Int(n),
        Scalar::Bool(b) => Cell::Bool(b),
        Scalar::Text(text) => Cell::Text(text),
        Scalar::Null => Cell::Null,
    }
}
