ghost use Rattle.std.specs.Prelude.{◌≡◌};
ghost use Rattle.primitive_operators.specs.Operators.{binary_value, same_value, unary_value, viewed};

use crate::booleans::{bool_value, equality_value, unary_bool};
use crate::ints::{int_value, unary_int};
use crate::{Applied, ScalarRef};
use core_tree::{BinOp, UnOp};

/// What an operator makes of the value after it (JLS 15.15): `+`, `-` and `~` of an int and `!` of a boolean.
pub fn unary_value(op: UnOp, a: ScalarRef) -> Applied
    ensures { result ≡ unary_value op (viewed a.entry) }
{
    match a {
        ScalarRef::Int(a) => unary_int(op, a),
        ScalarRef::Bool(a) => unary_bool(op, a),
        ScalarRef::Text(_) | ScalarRef::Null => Applied::NoMeaning,
    }
}

/// What an operator makes of two values (JLS 15.17 to 15.22): between two ints, between two booleans, and `==` and `!=`
/// of a text and null or of two nulls. It joins no texts.
pub fn binary_value(op: BinOp, a: ScalarRef, b: ScalarRef) -> Applied
    ensures { result ≡ binary_value op (viewed a.entry) (viewed b.entry) }
{
    match a {
        ScalarRef::Int(x) => match b {
            ScalarRef::Int(y) => int_value(op, x, y),
            _ => equality_value(op, same_value(a, b)),
        },
        ScalarRef::Bool(x) => match b {
            ScalarRef::Bool(y) => bool_value(op, x, y),
            _ => equality_value(op, same_value(a, b)),
        },
        ScalarRef::Text(_) | ScalarRef::Null => equality_value(op, same_value(a, b)),
    }
}

// Whether two values are the same, where one of them is null and the other null or a text (JLS 15.21.3).
fn same_value(a: ScalarRef, b: ScalarRef) -> Option<bool>
    ensures { result ≡ same_value (viewed a.entry) (viewed b.entry) }
{
    match a {
        ScalarRef::Null => match b {
            ScalarRef::Null => Some(true),
            ScalarRef::Text(_) => Some(false),
            ScalarRef::Int(_) | ScalarRef::Bool(_) => None,
        },
        ScalarRef::Text(_) => match b {
            ScalarRef::Null => Some(false),
            _ => None,
        },
        ScalarRef::Int(_) | ScalarRef::Bool(_) => None,
    }
}
