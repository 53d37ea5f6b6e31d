ghost use Rattle.std.specs.Prelude.{◌≡◌};
ghost use Rattle.primitive_operators.specs.declared.scalar.Scalar.TheVariants as scalar;
ghost use Rattle.primitive_operators.specs.Operators.{bool_value, equality_value, unary_value};

use crate::Applied;
use crate::applied::boolean;
use core_tree::{BinOp, UnOp};

/// What an operator makes of the boolean after it (JLS 15.15.6): `!` gives a boolean, and no other one has a meaning.
pub fn unary_bool(op: UnOp, a: bool) -> Applied
    ensures { result ≡ unary_value op (scalar.Bool a) }
{
    match op {
        UnOp::Not => boolean(!a),
        UnOp::Plus | UnOp::Neg | UnOp::Flip => Applied::NoMeaning,
    }
}

/// What an operator makes of two booleans (JLS 15.21.2, 15.22.2): `&`, `|`, `^`, `==` and `!=` give a boolean, and no
/// other one has a meaning.
pub fn bool_value(op: BinOp, a: bool, b: bool) -> Applied
    ensures { result ≡ bool_value op a b }
{
    match op {
        BinOp::BitAnd => boolean(a & b),
        BinOp::BitOr => boolean(a | b),
        BinOp::BitXor | BinOp::Ne => boolean(a != b),
        BinOp::Eq => boolean(a == b),
        _ => Applied::NoMeaning,
    }
}

/// What `==` and `!=` make of two values of which it is known whether they are the same (JLS 15.21.3); where it isn't
/// known, and for every other operator, there is no meaning.
pub fn equality_value(op: BinOp, same: Option<bool>) -> Applied
    ensures { result ≡ equality_value op same }
{
    match same {
        Some(same) => match op {
            BinOp::Eq => boolean(same),
            BinOp::Ne => boolean(!same),
            _ => Applied::NoMeaning,
        },
        None => Applied::NoMeaning,
    }
}
