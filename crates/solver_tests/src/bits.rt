//! The gates give what plain arithmetic gives, for numbers at the edges of widths and for random ones.

ghost use Rattle.std.specs.Prelude.{◌≡◌, ◌≤◌, ◌*◌, ◌^◌, IfOk, length, unsigned_abs};
ghost use Rattle.std.specs.List.{All};
ghost use Rattle.bit_gates.specs.Whole.{width_of};
ghost use Rattle.bit_gates.specs.Totals.{IsPart, bounds, widths};
ghost use Rattle.gate_net.specs.Net.{IsNode, nodes_of, inputs_of};
ghost use Rattle.bit_gates.specs.Bits.{IsBits};

mod arithmetic;
mod pairs;

use arithmetic::{Comparison, NumberCall, expected, factor, is_so};
use bit_gates::{Bits, add, constant, count, equal, less, minus, neg, sum, times_constant};
use gate_net::{Net, Node};
use pairs::{FIRSTS, RANDOM, SECONDS};
use std::alloc::{AllocError, Global};
use std::process::Abort;
use std::test::Fail;

const CALLS: [NumberCall; 5] = [
    NumberCall::Add,
    NumberCall::Minus,
    NumberCall::Neg,
    NumberCall::TimesConstant,
    NumberCall::Count,
];

// The number that the bits mean where the inputs have these values.
fn read(net: &Net, bits: &Bits, inputs: &[bool]) -> Result<i128, AllocError>
    requires bits { IsBits net.now bits.now }
    requires inputs { length inputs.now ≡ inputs_of net.now }
{
    let mut number = 0i128;
    let width = bits.nodes.len();
    for i in 0..width {
        let digit = net.value(bits.nodes[width - 1 - i], inputs)?;
        let worth = if i == 0 { -1 } else { 1 };
        number = number
            .wrapping_mul(2)
            .wrapping_add(if digit { worth } else { 0 });
    }
    Ok(number)
}

// What a call makes of two numbers, or of the first alone.
fn made(net: &mut Net, call: NumberCall, a: &Bits, b: &Bits, k: i64) -> Result<Bits, AllocError>
    requires first { IsBits net.old a.now }
    requires second { IsBits net.old b.now }
    requires small { (a.now.most ≤ 2 ^ 80) × (b.now.most ≤ 2 ^ 80) }
    requires factor { unsigned_abs k ≤ 2 ^ 31 }
    requires product { unsigned_abs k * a.now.most ≤ 2 ^ 88 }
    requires room { nodes_of net.old ≤ 1000 }
    ensures inputs { inputs_of net.new ≡ inputs_of net.old }
    ensures bits { IfOk result (λ bits. IsBits net.new bits) }
{
    match call {
        NumberCall::Add => add(net, a, b),
        NumberCall::Minus => minus(net, a, b),
        NumberCall::Neg => neg(net, a),
        NumberCall::TimesConstant => times_constant(net, k, a),
        NumberCall::Count => count(net, a.nodes.as_slice()),
    }
}

// The number that a call makes of two numbers.
fn answer(alloc: Global, call: NumberCall, x: i128, y: i128, k: i64) -> Result<i128, AllocError>
    requires first { unsigned_abs x ≤ 2 ^ 80 }
    requires second { unsigned_abs y ≤ 2 ^ 80 }
    requires factor { unsigned_abs k ≤ 2 ^ 31 }
    requires product { unsigned_abs k * unsigned_abs x ≤ 2 ^ 88 }
{
    let mut net = Net::new(alloc)?;
    let a = constant(&mut net, x)?;
    let b = constant(&mut net, y)?;
    let bits = made(&mut net, call, &a, &b, k)?;
    read(&net, &bits, &[])
}

// The node that says how two numbers compare.
fn compared(net: &mut Net, comparison: Comparison, a: &Bits, b: &Bits) -> Result<Node, AllocError>
    requires first { IsBits net.old a.now }
    requires second { IsBits net.old b.now }
    requires small { (a.now.most ≤ 2 ^ 80) × (b.now.most ≤ 2 ^ 80) }
    requires room { nodes_of net.old ≤ 1000 }
    ensures inputs { inputs_of net.new ≡ inputs_of net.old }
    ensures node { IfOk result (λ node. IsNode net.new node) }
{
    match comparison {
        Comparison::Less => less(net, a, b),
        Comparison::Equal => equal(net, a, b),
    }
}

// Whether two numbers compare so.
fn truth(alloc: Global, comparison: Comparison, x: i128, y: i128) -> Result<bool, AllocError>
    requires first { unsigned_abs x ≤ 2 ^ 80 }
    requires second { unsigned_abs y ≤ 2 ^ 80 }
{
    let mut net = Net::new(alloc)?;
    let a = constant(&mut net, x)?;
    let b = constant(&mut net, y)?;
    let node = compared(&mut net, comparison, &a, &b)?;
    net.value(node, &[])
}

// The sum of two parts whose nodes are inputs with these values.
fn total(alloc: Global, x: i128, y: i128, inputs: [bool; 2]) -> Result<i128, AllocError>
    requires first { unsigned_abs x ≤ 2 ^ 80 }
    requires second { unsigned_abs y ≤ 2 ^ 80 }
{
    let mut net = Net::new(alloc)?;
    let p = net.input()?;
    let q = net.input()?;
    let a = constant(&mut net, x)?;
    let b = constant(&mut net, y)?;
    let parts = vec![in alloc; (p, a), (q, b)]?;
    let total = sum(&mut net, parts.as_slice())?;
    read(&net, &total, &inputs)
}

// A number of the tables: its magnitude is at most 2^80.
fn checked(rt: &impl Abort, n: i128) -> i128
    ensures value { result ≡ n }
    ensures small { unsigned_abs result ≤ 2 ^ 80 }
{
    assert!(rt; n.unsigned_abs() <= 1 << 80);
    n
}

fn check_calls(rt: &impl Abort, alloc: Global, x: i128, y: i128) -> Result<(), Fail>
    requires first { unsigned_abs x ≤ 2 ^ 80 }
    requires second { unsigned_abs y ≤ 2 ^ 80 }
{
    let k = factor(x, y);
    for call in CALLS {
        let found = answer(alloc, call, x, y, k)?;
        assert_eq!(rt; found, expected(call, x, y, k), "{call:?} of {x} and {y}");
    }
    Ok(())
}

fn check_comparisons(rt: &impl Abort, alloc: Global, x: i128, y: i128) -> Result<(), Fail>
    requires first { unsigned_abs x ≤ 2 ^ 80 }
    requires second { unsigned_abs y ≤ 2 ^ 80 }
{
    for comparison in [Comparison::Less, Comparison::Equal] {
        let found = truth(alloc, comparison, x, y)?;
        assert_eq!(rt;
            found,
            is_so(comparison, x, y),
            "{comparison:?} of {x} and {y}"
        );
    }
    Ok(())
}

// Where an input is false, its part doesn't count.
fn check_totals(rt: &impl Abort, alloc: Global, x: i128, y: i128) -> Result<(), Fail>
    requires first { unsigned_abs x ≤ 2 ^ 80 }
    requires second { unsigned_abs y ≤ 2 ^ 80 }
{
    for [first, second] in [[false, false], [false, true], [true, false], [true, true]] {
        let found = total(alloc, x, y, [first, second])?;
        let expected = (if first { x } else { 0 }).wrapping_add(if second { y } else { 0 });
        assert_eq!(rt; found, expected, "{first} {x} and {second} {y}");
    }
    Ok(())
}

fn check_pair(rt: &impl Abort, alloc: Global, x: i128, y: i128) -> Result<(), Fail> {
    let (x, y) = (checked(rt, x), checked(rt, y));
    check_calls(rt, alloc, x, y)?;
    check_comparisons(rt, alloc, x, y)?;
    check_totals(rt, alloc, x, y)
}

fn check_seconds(rt: &impl Abort, alloc: Global, x: i128) -> Result<(), Fail> {
    for y in SECONDS {
        check_pair(rt, alloc, x, y)?;
    }
    Ok(())
}

#[test]
fn agrees_at_the_edges_of_widths(rt: HostRuntime) -> Result<(), Fail> {
    for x in FIRSTS {
        check_seconds(&rt, rt.alloc(), x)?;
    }
    Ok(())
}

#[test]
fn agrees_on_random_numbers(rt: HostRuntime) -> Result<(), Fail> {
    for (x, y) in RANDOM {
        check_pair(&rt, rt.alloc(), x, y)?;
    }
    Ok(())
}

// 200 true parts with the greatest `int`, and a negative factor at the least one.
#[test]
fn totals_and_products_are_not_cut_off(rt: HostRuntime) -> Result<(), Fail> {
    let alloc = rt.alloc();
    assert_eq!(rt; repeated_total(alloc)?, 429496729400);
    let product = answer(alloc, NumberCall::TimesConstant, -2147483648, 0, -3)?;
    assert_eq!(rt; product, 6442450944);
    Ok(())
}

// The sum of 200 true parts with the greatest `int`.
fn repeated_total(alloc: Global) -> Result<i128, AllocError> {
    let mut net = Net::new(alloc)?;
    let parts = repeated(&mut net, 200)?;
    let total = sum(&mut net, parts.as_slice())?;
    read(&net, &total, &[])
}

// That many true parts with the greatest `int`.
fn repeated(net: &mut Net, times: usize) -> Result<Vec<(Node, Bits)>, AllocError>
    ensures net { net.new ≡ net.old }
    ensures count { IfOk result (λ parts. length parts.items ≡ times) }
    ensures parts { IfOk result (λ parts. All (IsPart net.new) parts.items) }
    ensures bounds { IfOk result (λ parts. bounds parts.items ≡ 2147483647 * times) }
    ensures widths { IfOk result (λ parts. widths parts.items ≡ width_of 2147483647 * times) }
{
    let mut parts = Vec::with_capacity(net.allocator(), times)?;
    for _ in 0..times {
        let yes = net.constant(true);
        let number = constant(net, 2147483647)?;
        parts.push((yes, number))?;
    }
    Ok(parts)
}
