ghost use Rattle.std.specs.Prelude.{◌≡◌, ◌<◌, ◌≤◌, ◌+◌, ◌*◌, ◌^◌, ◌+ℤ◌, ◌*ℤ◌, pos, unsigned_abs, Bool, IfOk, length, map, drop, if◌then◌else◌};
ghost use Rattle.std.specs.List.{All};
ghost use Rattle.gate_net.specs.Net.{Always, Grows, IsNode, nodes_of};
ghost use Rattle.bit_gates.specs.Whole.{whole, width_of};
ghost use Rattle.bit_gates.specs.Bits.{IsBits, number};

use crate::bits::{resized, width};
use crate::digits::{Rule, join};
use crate::{Bits, neg};
use gate_net::{Net, Node};
use std::alloc::{AllocError, Global};

// How many binary digits a factor has.
const FACTOR_DIGITS: usize = 32;

/// A constant times a number, with the product of the constant's magnitude and the bound. It adds at most 160 nodes for
/// each digit of the number and two more, and three for each digit of the result.
///
/// Answers `AllocError` where memory is refused. Earlier nodes keep their values, also then.
pub fn times_constant(net: &mut Net, k: i64, a: &Bits) -> Result<Bits, AllocError>
    requires bits { IsBits net.old a.now }
    requires factor { unsigned_abs k ≤ 2 ^ 31 }
    requires small { unsigned_abs k * a.now.most ≤ 2 ^ 88 }
    requires room { nodes_of net.old +
        (160 * (length a.now.nodes.items + 2) + 3 * width_of (unsigned_abs k * a.now.most)) ≤ 2 ^ 28 }
    ensures grows { Grows
        (160 * (length a.now.nodes.items + 2) + 3 * width_of (unsigned_abs k * a.now.most)) net.old net.new }
    ensures bits { IfOk result (λ product. IsBits net.new product) }
    ensures most { IfOk result (λ product. product.most ≡ unsigned_abs k * a.now.most) }
    ensures value { IfOk result (λ product. Always net.new (λ value.
        number value product ≡ k *ℤ number value a.now)) }
{
    let product = product(net, k.unsigned_abs() as u32, a)?;
    if k < 0 {
        neg(net, &product)
    } else {
        Ok(product)
    }
}

// The same for a factor that isn't negative: as many digits of the product as its bound asks for.
fn product(net: &mut Net, factor: u32, a: &Bits) -> Result<Bits, AllocError>
    requires bits { IsBits net.old a.now }
    requires small { factor * a.now.most ≤ 2 ^ 88 }
    requires room { nodes_of net.old + 160 * (length a.now.nodes.items + 1) ≤ 2 ^ 28 }
    ensures grows { Grows (160 * (length a.now.nodes.items + 1)) net.old net.new }
    ensures bits { IfOk result (λ product. IsBits net.new product) }
    ensures most { IfOk result (λ product. product.most ≡ factor * a.now.most) }
    ensures value { IfOk result (λ product. Always net.new (λ value.
        number value product ≡ pos factor *ℤ number value a.now)) }
{
    let most = u128::from(factor) * a.most;
    let digits = digits_of_product(net, factor, a.nodes.as_slice())?;
    let nodes = resized(net.allocator(), digits.as_slice(), width(most))?;
    Ok(Bits { nodes, most })
}

// All digits of a product, lowest first. What is still to be added to the product's higher digits is kept at the width
// of the number: its lowest digit with the next part is the product's next one.
fn digits_of_product(net: &mut Net, factor: u32, ys: &[Node]) -> Result<Vec<Node>, AllocError>
    requires some { 0 < length ys.now }
    requires ys { All (IsNode net.old) ys.now }
    requires room { nodes_of net.old + 160 * (length ys.now + 1) ≤ 2 ^ 28 }
    ensures grows { Grows (160 * (length ys.now + 1)) net.old net.new }
    ensures some { IfOk result (λ digits. 0 < length digits.items) }
    ensures nodes { IfOk result (λ digits. All (IsNode net.new) digits.items) }
    ensures value { IfOk result (λ digits. Always net.new (λ value.
        whole (map value digits.items) ≡ pos factor *ℤ whole (map value ys.now))) }
{
    let mut digits = Vec::with_capacity(net.allocator(), FACTOR_DIGITS + ys.len())?;
    let mut higher = vec![in net.allocator(); net.constant(false); ys.len()]?;
    let mut rest = factor;
    for _ in 0..FACTOR_DIGITS {
        let sum = sum_if(net, rest % 2 == 1, higher.as_slice(), ys)?;
        digits.push(sum[0])?;
        higher = all_but_first(net.allocator(), sum.as_slice())?;
        rest /= 2;
    }
    digits.extend_from_slice(higher.as_slice())?;
    Ok(digits)
}

// The nodes without the first one.
fn all_but_first(alloc: Global, nodes: &[Node]) -> Result<Vec<Node>, AllocError>
    requires { 0 < length nodes.now }
    ensures { IfOk result (λ others. others.items ≡ drop 1 nodes.now) }
{
    nodes[1..].to_vec(alloc)
}

// The digits of a number, and of one more of its width where that is wanted: one digit more than each has.
fn sum_if(net: &mut Net, wanted: bool, xs: &[Node], ys: &[Node]) -> Result<Vec<Node>, AllocError>
    requires some { 0 < length xs.now }
    requires same { length ys.now ≡ length xs.now }
    requires xs { All (IsNode net.old) xs.now }
    requires ys { All (IsNode net.old) ys.now }
    requires room { nodes_of net.old + 5 * (length xs.now + 1) ≤ 2 ^ 28 }
    ensures grows { Grows (5 * (length xs.now + 1)) net.old net.new }
    ensures width { IfOk result (λ digits. length digits.items ≡ length xs.now + 1) }
    ensures nodes { IfOk result (λ digits. All (IsNode net.new) digits.items) }
    ensures value { IfOk result (λ digits. Always net.new (λ value.
        whole (map value digits.items)
        ≡ whole (map value xs.now) +ℤ (if wanted then whole (map value ys.now) else pos 0))) }
{
    let width = xs.len() + 1;
    let first = resized(net.allocator(), xs, width)?;
    if !wanted {
        return Ok(first);
    }
    let second = resized(net.allocator(), ys, width)?;
    let digits = join(net, Rule::Sum, first.as_slice(), second.as_slice())?;
    Ok(digits.values)
}
