ghost use Rattle.std.specs.Prelude.{◌≡◌, int_div, int_rem};
ghost use Rattle.primitive_operators.specs.declared.scalar.Scalar.TheVariants as scalar;
ghost use Rattle.primitive_operators.specs.Operators.{divided, int_value, unary_value};

use crate::Applied;
use crate::applied::{boolean, int};
use core_tree::{BinOp, UnOp};

/// What an operator makes of the int after it (JLS 15.15): `+`, `-` and `~` give an int, and `!` has no meaning.
pub fn unary_int(op: UnOp, a: i32) -> Applied
    ensures { result ≡ unary_value op (scalar.Int a) }
{
    match op {
        UnOp::Plus => int(a),
        UnOp::Neg => int(pb_int::neg(a)),
        UnOp::Flip => int(pb_int::not(a)),
        UnOp::Not => Applied::NoMeaning,
    }
}

/// What an operator makes of two ints (JLS 15.17 to 15.22): comparisons give a boolean, and all others an int, but for
/// a division by zero.
pub fn int_value(op: BinOp, a: i32, b: i32) -> Applied
    ensures { result ≡ int_value op a b }
{
    match op {
        BinOp::Add => int(pb_int::add(a, b)),
        BinOp::Sub => int(pb_int::sub(a, b)),
        BinOp::Mul => int(pb_int::mul(a, b)),
        BinOp::Div => quotient(a, b),
        BinOp::Rem => remainder(a, b),
        BinOp::Shl => int(pb_int::shl(a, b)),
        BinOp::Shr => int(pb_int::shr(a, b)),
        BinOp::Ushr => int(pb_int::ushr(a, b)),
        BinOp::BitAnd => int(pb_int::and(a, b)),
        BinOp::BitOr => int(pb_int::or(a, b)),
        BinOp::BitXor => int(pb_int::xor(a, b)),
        BinOp::Eq => boolean(a == b),
        BinOp::Ne => boolean(a != b),
        BinOp::Lt => boolean(a < b),
        BinOp::Le => boolean(a <= b),
        BinOp::Gt => boolean(a > b),
        BinOp::Ge => boolean(a >= b),
    }
}

// `a / b` (JLS 15.17.2).
fn quotient(a: i32, b: i32) -> Applied
    ensures { result ≡ divided b (int_div a b) }
{
    match pb_int::div(a, b) {
        Ok(n) => int(n),
        Err(_) => Applied::DividesByZero,
    }
}

// `a % b` (JLS 15.17.3).
fn remainder(a: i32, b: i32) -> Applied
    ensures { result ≡ divided b (int_rem a b) }
{
    match pb_int::rem(a, b) {
        Ok(n) => int(n),
        Err(_) => Applied::DividesByZero,
    }
}
