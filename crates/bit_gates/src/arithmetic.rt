ghost use Rattle.std.specs.Prelude.{◌≡◌, ◌≤◌, ◌+◌, ◌*◌, ◌^◌, ◌+ℤ◌, ◌-ℤ◌, neg_ℤ, Bool, IfOk};
ghost use Rattle.gate_net.specs.Net.{Always, Grows, nodes_of};
ghost use Rattle.bit_gates.specs.Whole.{width_of};
ghost use Rattle.bit_gates.specs.Bits.{IsBits, number};
ghost use Rattle.bit_gates.specs.Digits.{joined_number};

use crate::Bits;
use crate::bits::{resized, width};
use crate::digits::{Rule, join};
use crate::negation::negated;
use gate_net::Net;
use std::alloc::AllocError;

/// The sum of two numbers, with the sum of both bounds. It adds at most five nodes for each digit of the result.
///
/// Answers `AllocError` where memory is refused. Earlier nodes keep their values, also then.
pub fn add(net: &mut Net, a: &Bits, b: &Bits) -> Result<Bits, AllocError>
    requires first { IsBits net.old a.now }
    requires second { IsBits net.old b.now }
    requires small { a.now.most + b.now.most ≤ 2 ^ 88 }
    requires room { nodes_of net.old + 5 * width_of (a.now.most + b.now.most) ≤ 2 ^ 28 }
    ensures grows { Grows (5 * width_of (a.now.most + b.now.most)) net.old net.new }
    ensures bits { IfOk result (λ sum. IsBits net.new sum) }
    ensures most { IfOk result (λ sum. sum.most ≡ a.now.most + b.now.most) }
    ensures value { IfOk result (λ sum. Always net.new (λ value.
        number value sum ≡ number value a.now +ℤ number value b.now)) }
{
    joined(net, Rule::Sum, a, b)
}

/// The first number less the second, with the sum of both bounds. It adds at most five nodes for each digit of the
/// result.
///
/// Answers `AllocError` where memory is refused. Earlier nodes keep their values, also then.
pub fn minus(net: &mut Net, a: &Bits, b: &Bits) -> Result<Bits, AllocError>
    requires first { IsBits net.old a.now }
    requires second { IsBits net.old b.now }
    requires small { a.now.most + b.now.most ≤ 2 ^ 88 }
    requires room { nodes_of net.old + 5 * width_of (a.now.most + b.now.most) ≤ 2 ^ 28 }
    ensures grows { Grows (5 * width_of (a.now.most + b.now.most)) net.old net.new }
    ensures bits { IfOk result (λ difference. IsBits net.new difference) }
    ensures most { IfOk result (λ difference. difference.most ≡ a.now.most + b.now.most) }
    ensures value { IfOk result (λ difference. Always net.new (λ value.
        number value difference ≡ number value a.now -ℤ number value b.now)) }
{
    joined(net, Rule::Difference, a, b)
}

/// The negation of a number, with the number's bound. It adds at most three nodes for each digit.
///
/// Answers `AllocError` where memory is refused. Earlier nodes keep their values, also then.
pub fn neg(net: &mut Net, a: &Bits) -> Result<Bits, AllocError>
    requires bits { IsBits net.old a.now }
    requires small { a.now.most ≤ 2 ^ 88 }
    requires room { nodes_of net.old + 3 * width_of a.now.most ≤ 2 ^ 28 }
    ensures grows { Grows (3 * width_of a.now.most) net.old net.new }
    ensures bits { IfOk result (λ negation. IsBits net.new negation) }
    ensures most { IfOk result (λ negation. negation.most ≡ a.now.most) }
    ensures value { IfOk result (λ negation. Always net.new (λ value.
        number value negation ≡ neg_ℤ (number value a.now))) }
{
    let nodes = negated(net, a.nodes.as_slice())?;
    let most = a.most;
    Ok(Bits { nodes, most })
}

// The sum or the difference of two numbers, at the width at which both fit.
fn joined(net: &mut Net, rule: Rule, a: &Bits, b: &Bits) -> Result<Bits, AllocError>
    requires first { IsBits net.old a.now }
    requires second { IsBits net.old b.now }
    requires small { a.now.most + b.now.most ≤ 2 ^ 88 }
    requires room { nodes_of net.old + 5 * width_of (a.now.most + b.now.most) ≤ 2 ^ 28 }
    ensures grows { Grows (5 * width_of (a.now.most + b.now.most)) net.old net.new }
    ensures bits { IfOk result (λ r. IsBits net.new r) }
    ensures most { IfOk result (λ r. r.most ≡ a.now.most + b.now.most) }
    ensures value { IfOk result (λ r. Always net.new (λ value.
        number value r ≡ joined_number rule (number value a.now) (number value b.now))) }
{
    let most = a.most + b.most;
    let width = width(most);
    let first = resized(net.allocator(), a.nodes.as_slice(), width)?;
    let second = resized(net.allocator(), b.nodes.as_slice(), width)?;
    let digits = join(net, rule, first.as_slice(), second.as_slice())?;
    Ok(Bits {
        nodes: digits.values,
        most,
    })
}
