ghost use Rattle.std.specs.Prelude.{◌≡◌, IfOk, IsErr};
ghost use Rattle.evaluation.specs.Values.{binary_value, unary_value, update_value};

use crate::concatenated;
use crate::equality::same_object;
use crate::scalars::{computed, scalar};
use core_tree::{BinOp, OutOfMemory, UnOp, UpOp};
use evaluation::Computed;
use heap_arena::Cell;
use primitive_operators::{binary_op, equality_value};
use std::alloc::Global;

/// What an operator makes of the value after it (JLS 15.15): `+`, `-` and `~` of an int and `!` of a boolean, and
/// `NoMeaning` of every other value.
pub fn unary_value(op: UnOp, v: &Cell<u32>) -> Computed
    ensures { result ≡ unary_value op v.now }
{
    match scalar(v) {
        Some(a) => computed(primitive_operators::unary_value(op, a)),
        None => Computed::NoMeaning,
    }
}

/// What an operator makes of two values (JLS 15.17 to 15.22): between two ints, between two booleans, and `==` and `!=`
/// between objects, null, and a text and null. A division by zero traps; operands of other types give `NoMeaning`.
pub fn binary_value(op: BinOp, a: &Cell<u32>, b: &Cell<u32>) -> Computed
    ensures { result ≡ binary_value op a.now b.now }
{
    match (scalar(a), scalar(b)) {
        (Some(x), Some(y)) => computed(primitive_operators::binary_value(op, x, y)),
        _ => computed(equality_value(op, same_object(a, b))),
    }
}

/// What the operator of a compound assignment makes of two values (JLS 15.26.2). Only `+=` on a String takes memory.
pub fn update_value(
    alloc: Global,
    op: UpOp,
    a: &Cell<u32>,
    b: &Cell<u32>,
) -> Result<Computed, OutOfMemory>
    ensures value { IfOk result (λ it. it ≡ update_value op a.now b.now) }
    ensures memory { IsErr result → op ≡ UpOp.Concat }
{
    match binary_op(op) {
        Some(op) => Ok(binary_value(op, a, b)),
        None => concatenated(alloc, a, b),
    }
}
