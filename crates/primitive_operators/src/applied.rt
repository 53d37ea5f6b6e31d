ghost use Rattle.std.specs.Prelude.{◌≡◌};
ghost use Rattle.primitive_operators.specs.Operators.{gives_bool, gives_int};

use crate::Scalar;

/// What an operator makes of its operands.
#[derive(Drop)]
pub enum Applied {
    Gives(Scalar),
    /// A quotient or remainder has no value where the divisor is 0.
    DividesByZero,
    /// The operator isn't one for operands of these types.
    NoMeaning,
}

// The int.
pub fn int(n: i32) -> Applied
    ensures { result ≡ gives_int n }
{
    Applied::Gives(Scalar::Int(n))
}

// The boolean.
pub fn boolean(b: bool) -> Applied
    ensures { result ≡ gives_bool b }
{
    Applied::Gives(Scalar::Bool(b))
}
