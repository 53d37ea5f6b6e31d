ghost use Rattle.std.specs.Prelude.{◌≡◌, ◌≤◌, ◌+◌, ◌*◌, ◌^◌, Bool, IfOk, length, pos, if◌then◌else◌};
ghost use Rattle.std.specs.List.{All};
ghost use Rattle.gate_net.specs.Net.{Always, Grows, IsNode, nodes_of};
ghost use Rattle.bit_gates.specs.Whole.{width_of};
ghost use Rattle.bit_gates.specs.Bits.{IsBits, number};
ghost use Rattle.bit_gates.specs.Totals.{IsPart, counted, total, bounds, widths};

use crate::{Bits, add, constant};
use gate_net::{Net, Node};
use std::alloc::AllocError;

/// How many of the nodes are true; the bound is how many there are. It adds at most five nodes for each node and each
/// digit of the result.
///
/// Answers `AllocError` where memory is refused. Earlier nodes keep their values, also then.
pub fn count(net: &mut Net, of: &[Node]) -> Result<Bits, AllocError>
    requires nodes { All (IsNode net.old) of.now }
    requires room { nodes_of net.old + 5 * width_of (length of.now) * length of.now ≤ 2 ^ 28 }
    ensures grows { Grows (5 * width_of (length of.now) * length of.now) net.old net.new }
    ensures bits { IfOk result (λ count. IsBits net.new count) }
    ensures most { IfOk result (λ count. count.most ≡ length of.now) }
    ensures value { IfOk result (λ count. Always net.new (λ value. number value count ≡ pos (counted value of.now))) }
{
    let mut count = constant(net, 0)?;
    for node in of {
        let one = digit(net, *node)?;
        count = add(net, &count, &one)?;
    }
    Ok(count)
}

// The number 1 where the node is true, and else 0.
fn digit(net: &Net, node: Node) -> Result<Bits, AllocError>
    requires { IsNode net.now node }
    ensures bits { IfOk result (λ bits. IsBits net.now bits) }
    ensures most { IfOk result (λ bits. bits.most ≡ 1) }
    ensures value { IfOk result (λ bits. Always net.now (λ value.
        number value bits ≡ pos (if value node then 1 else 0))) }
{
    let nodes = vec![in net.allocator(); node, net.constant(false)]?;
    Ok(Bits { nodes, most: 1 })
}

/// The sum of the numbers whose node is true, with the sum of all bounds. For each part it adds at most as many nodes
/// as the part has digits, and five for each digit of the result.
///
/// Answers `AllocError` where memory is refused. Earlier nodes keep their values, also then.
pub fn sum(net: &mut Net, of: &[(Node, Bits)]) -> Result<Bits, AllocError>
    requires parts { All (IsPart net.old) of.now }
    requires small { bounds of.now ≤ 2 ^ 88 }
    requires room { nodes_of net.old + (widths of.now + 5 * width_of (bounds of.now) * length of.now) ≤ 2 ^ 28 }
    ensures grows { Grows (widths of.now + 5 * width_of (bounds of.now) * length of.now) net.old net.new }
    ensures bits { IfOk result (λ sum. IsBits net.new sum) }
    ensures most { IfOk result (λ sum. sum.most ≡ bounds of.now) }
    ensures value { IfOk result (λ sum. Always net.new (λ value. number value sum ≡ total value of.now)) }
{
    let mut sum = constant(net, 0)?;
    for (node, bits) in of {
        let part = masked(net, *node, bits)?;
        sum = add(net, &sum, &part)?;
    }
    Ok(sum)
}

// The number where the node is true, and else 0.
fn masked(net: &mut Net, node: Node, bits: &Bits) -> Result<Bits, AllocError>
    requires node { IsNode net.old node }
    requires bits { IsBits net.old bits.now }
    requires room { nodes_of net.old + length bits.now.nodes.items ≤ 2 ^ 28 }
    ensures grows { Grows (length bits.now.nodes.items) net.old net.new }
    ensures bits { IfOk result (λ masked. IsBits net.new masked) }
    ensures most { IfOk result (λ masked. masked.most ≡ bits.now.most) }
    ensures value { IfOk result (λ masked. Always net.new (λ value.
        number value masked ≡ (if value node then number value bits.now else pos 0))) }
{
    let mut nodes = Vec::with_capacity(net.allocator(), bits.nodes.len())?;
    for digit in &bits.nodes {
        nodes.push(net.and(node, *digit)?)?;
    }
    let most = bits.most;
    Ok(Bits { nodes, most })
}
