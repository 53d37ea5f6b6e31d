ghost use Rattle.std.specs.Prelude.{◌≡◌, ◌≤◌, ◌<◌, ◌+◌, ◌*◌, ◌^◌, ◌-◌, max, Bool, IfOk, length, map, int_lt};
ghost use Rattle.std.specs.List.{All};
ghost use Rattle.std.specs.Ordering.{int_eq};
ghost use Rattle.gate_net.specs.Net.{Always, IsNode, Grows, nodes_of};
ghost use Rattle.bit_gates.specs.Whole.{unsigned, whole, width_of};
ghost use Rattle.bit_gates.specs.Bits.{IsBits, number};
ghost use Rattle.bit_gates.specs.Digits.{Differs};

use crate::Bits;
use crate::bits::{at_width, width};
use crate::digits::{Rule, choose, join};
use gate_net::{Net, Node};
use std::alloc::AllocError;

/// A node that is true where the first number is less than the second. It adds at most five nodes for each digit of the
/// wider number.
///
/// Answers `AllocError` where memory is refused. Earlier nodes keep their values, also then.
pub fn less(net: &mut Net, a: &Bits, b: &Bits) -> Result<Node, AllocError>
    requires first { IsBits net.old a.now }
    requires second { IsBits net.old b.now }
    requires room { nodes_of net.old + 5 * width_of (max a.now.most b.now.most) ≤ 2 ^ 28 }
    ensures grows { Grows (5 * width_of (max a.now.most b.now.most)) net.old net.new }
    ensures node { IfOk result (λ n. IsNode net.new n) }
    ensures value { IfOk result (λ n. Always net.new (λ value.
        value n ≡ int_lt (number value a.now) (number value b.now))) }
{
    let width = width(a.most.max(b.most));
    let first = at_width(net, a, width)?;
    let second = at_width(net, b, width)?;
    less_nodes(net, first.as_slice(), second.as_slice())
}

/// A node that is true where the two numbers are equal. It adds at most two nodes for each digit of the wider number.
///
/// Answers `AllocError` where memory is refused. Earlier nodes keep their values, also then.
pub fn equal(net: &mut Net, a: &Bits, b: &Bits) -> Result<Node, AllocError>
    requires first { IsBits net.old a.now }
    requires second { IsBits net.old b.now }
    requires room { nodes_of net.old + 2 * width_of (max a.now.most b.now.most) ≤ 2 ^ 28 }
    ensures grows { Grows (2 * width_of (max a.now.most b.now.most)) net.old net.new }
    ensures node { IfOk result (λ n. IsNode net.new n) }
    ensures value { IfOk result (λ n. Always net.new (λ value.
        value n ≡ int_eq (number value a.now) (number value b.now))) }
{
    let width = width(a.most.max(b.most));
    let first = at_width(net, a, width)?;
    let second = at_width(net, b, width)?;
    equal_nodes(net, first.as_slice(), second.as_slice())
}

// The same for numbers of one width: the lower digits decide where the signs are equal.
fn less_nodes(net: &mut Net, xs: &[Node], ys: &[Node]) -> Result<Node, AllocError>
    requires some { 0 < length xs.now }
    requires same { length ys.now ≡ length xs.now }
    requires xs { All (IsNode net.old) xs.now }
    requires ys { All (IsNode net.old) ys.now }
    requires room { nodes_of net.old + 5 * length xs.now ≤ 2 ^ 28 }
    ensures grows { Grows (5 * length xs.now) net.old net.new }
    ensures node { IfOk result (λ n. IsNode net.new n) }
    ensures value { IfOk result (λ n. Always net.new (λ value.
        value n ≡ int_lt (whole (map value xs.now)) (whole (map value ys.now)))) }
{
    let last = xs.len() - 1;
    let lower = join(net, Rule::Difference, &xs[..last], &ys[..last])?;
    let differ = net.xor(xs[last], ys[last])?;
    choose(net, differ, xs[last], lower.carry)
}

// The same for numbers of one width.
fn equal_nodes(net: &mut Net, xs: &[Node], ys: &[Node]) -> Result<Node, AllocError>
    requires some { 0 < length xs.now }
    requires same { length ys.now ≡ length xs.now }
    requires xs { All (IsNode net.old) xs.now }
    requires ys { All (IsNode net.old) ys.now }
    requires room { nodes_of net.old + 2 * length xs.now ≤ 2 ^ 28 }
    ensures grows { Grows (2 * length xs.now) net.old net.new }
    ensures node { IfOk result (λ n. IsNode net.new n) }
    ensures value { IfOk result (λ n. Always net.new (λ value.
        value n ≡ int_eq (whole (map value xs.now)) (whole (map value ys.now)))) }
{
    let differ = differ(net, xs, ys)?;
    net.not(differ)
}

// A node that is true where some digits differ.
fn differ(net: &mut Net, xs: &[Node], ys: &[Node]) -> Result<Node, AllocError>
    requires some { 0 < length xs.now }
    requires same { length ys.now ≡ length xs.now }
    requires xs { All (IsNode net.old) xs.now }
    requires ys { All (IsNode net.old) ys.now }
    requires room { nodes_of net.old + 2 * length xs.now ≤ 2 ^ 28 }
    ensures grows { Grows (2 * length xs.now - 1) net.old net.new }
    ensures node { IfOk result (λ n. IsNode net.new n) }
    ensures value { IfOk result (λ n. Always net.new (λ value.
        Differs (value n) (unsigned (map value xs.now)) (unsigned (map value ys.now)))) }
{
    let mut differ = net.xor(xs[0], ys[0])?;
    for i in 1..xs.len() {
        let here = net.xor(xs[i], ys[i])?;
        differ = net.or(differ, here)?;
    }
    Ok(differ)
}
