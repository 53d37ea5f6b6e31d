//! Java's `int`.

use pb_int::{
    Digits, Zero, add, and, decimal, div, mul, neg, not, or, rem, shl, shr, sub, ushr, xor,
};
use std::alloc::{AllocError, Global};
use std::test::Fail;

/// Writes the number and a space.
fn push_number(text: &mut String, n: i32) -> Result<(), AllocError> {
    let mut digits = Digits::new();
    text.push_str(decimal(n, &mut digits))?;
    text.push(' ')
}

/// Writes the number, or `zero` where the divisor is 0, and a space.
fn push_outcome(text: &mut String, outcome: Result<i32, Zero>) -> Result<(), AllocError> {
    match outcome {
        Ok(n) => push_number(text, n),
        Err(Zero) => text.push_str("zero "),
    }
}

/// What each operation gives for `a` and `b`, or for `a` alone, in the order of the table.
fn results(alloc: Global, a: i32, b: i32) -> Result<String, AllocError> {
    let mut text = String::new(alloc);
    for n in [add(a, b), sub(a, b), mul(a, b)] {
        push_number(&mut text, n)?;
    }
    push_outcome(&mut text, div(a, b))?;
    push_outcome(&mut text, rem(a, b))?;
    for n in [
        shl(a, b),
        shr(a, b),
        ushr(a, b),
        and(a, b),
        or(a, b),
        xor(a, b),
        neg(a),
        not(a),
    ] {
        push_number(&mut text, n)?;
    }
    Ok(text)
}

/// What Java 17 prints for `a + b`, `a - b`, `a * b`, `a / b`, `a % b`, `a << b`, `a >> b`, `a >>> b`, `a & b`,
/// `a | b`, `a ^ b`, `-a` and `~a`, with `zero` for an ArithmeticException.
#[test]
fn agrees_with_java(rt: HostRuntime) -> Result<(), Fail> {
    let rows: [(i32, i32, &str); 14] = [
        (
            i32::MIN,
            -1,
            "2147483647 -2147483647 -2147483648 -2147483648 0 0 -1 1 -2147483648 -1 2147483647 -2147483648 2147483647 ",
        ),
        (
            i32::MAX,
            1,
            "-2147483648 2147483646 2147483647 2147483647 0 -2 1073741823 1073741823 1 2147483647 2147483646 \
            -2147483647 -2147483648 ",
        ),
        (
            i32::MIN,
            1,
            "-2147483647 2147483647 -2147483648 -2147483648 0 0 -1073741824 1073741824 0 -2147483647 -2147483647 \
            -2147483648 2147483647 ",
        ),
        (
            i32::MIN,
            i32::MIN,
            "0 0 0 1 0 -2147483648 -2147483648 -2147483648 -2147483648 -2147483648 0 -2147483648 2147483647 ",
        ),
        (
            i32::MAX,
            i32::MAX,
            "-2 0 1 1 0 -2147483648 0 0 2147483647 2147483647 0 -2147483647 -2147483648 ",
        ),
        (7, -2, "5 9 -14 -3 1 -1073741824 0 0 6 -1 -7 -7 -8 "),
        (-7, 2, "-5 -9 -14 -3 -1 -28 -2 1073741822 0 -5 -5 7 6 "),
        (-1, 31, "30 -32 -31 0 -1 -2147483648 -1 1 31 -1 -32 1 0 "),
        (-9, 32, "23 -41 -288 0 -9 -9 -9 -9 32 -9 -41 9 8 "),
        (-9, 33, "24 -42 -297 0 -9 -18 -5 2147483643 33 -9 -42 9 8 "),
        (1, -1, "0 2 -1 -1 0 -2147483648 0 0 1 -1 -2 -1 -2 "),
        (
            305419896,
            -20,
            "305419876 305419916 -1813430624 -15270994 16 1164410880 74565 74565 305419880 -4 -305419884 -305419896 \
            -305419897 ",
        ),
        (5, 0, "5 5 0 zero zero 5 5 5 0 5 5 -5 -6 "),
        (0, 5, "5 -5 0 0 0 0 0 0 0 5 5 0 -1 "),
    ];
    for (a, b, printed) in rows {
        let found = results(rt.alloc(), a, b)?;
        assert_eq!(rt; found.as_str(), printed, "at {a} and {b}");
    }
    Ok(())
}
