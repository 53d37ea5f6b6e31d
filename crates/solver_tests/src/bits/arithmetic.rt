//! What the calls on bits are to make of numbers, by plain arithmetic.

ghost use Rattle.std.specs.Prelude.{◌≤◌, ◌*◌, ◌^◌, ◌≤ℤ◌, pos, unsigned_abs};

/// The calls that make a number.
#[derive(Clone, Copy, Debug)]
pub(crate) enum NumberCall {
    Add,
    Minus,
    Neg,
    TimesConstant,
    Count,
}

/// The calls that make a node.
#[derive(Clone, Copy, Debug)]
pub(crate) enum Comparison {
    Less,
    Equal,
}

/// The number that a call is to make, where the constant is k.
pub(crate) fn expected(call: NumberCall, x: i128, y: i128, k: i64) -> i128 {
    match call {
        NumberCall::Add => x.wrapping_add(y),
        NumberCall::Minus => x.wrapping_sub(y),
        NumberCall::Neg => x.wrapping_neg(),
        NumberCall::TimesConstant => i128::from(k).wrapping_mul(x),
        NumberCall::Count => i128::from(ones(x)),
    }
}

/// Whether the numbers compare so.
pub(crate) fn is_so(comparison: Comparison, x: i128, y: i128) -> bool {
    match comparison {
        Comparison::Less => x < y,
        Comparison::Equal => x == y,
    }
}

// The true ones among the digits of a number at the least width that has its magnitude and a sign.
fn ones(x: i128) -> u32 {
    // A negative number has a 1 at each place beyond its width.
    let beyond = if x < 0 {
        x.unsigned_abs().leading_zeros().wrapping_sub(1)
    } else {
        0
    };
    x.count_ones().wrapping_sub(beyond)
}

/// A factor at which the product with x stays within 2^88.
pub(crate) fn factor(x: i128, y: i128) -> i64
    requires { unsigned_abs x ≤ 2 ^ 80 }
    ensures factor { unsigned_abs result ≤ 2 ^ 31 }
    ensures small { unsigned_abs result * unsigned_abs x ≤ 2 ^ 88 }
{
    if x.unsigned_abs() <= 1 << 57 {
        nearest(y, 1 << 31)
    } else {
        nearest(y, 1 << 8)
    }
}

// A number of at most this magnitude: the one that is nearest.
fn nearest(y: i128, most: i64) -> i64
    requires some { pos 0 ≤ℤ most }
    requires small { most ≤ℤ pos 2147483648 }
    ensures { unsigned_abs result ≤ unsigned_abs most }
{
    y.clamp(-i128::from(most), i128::from(most)) as i64
}
