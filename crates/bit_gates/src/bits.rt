ghost use Rattle.std.specs.Prelude.{◌≡◌, ◌<◌, ◌≤◌, ◌^◌, IfOk, length, map};
ghost use Rattle.std.specs.List.{All};
ghost use Rattle.gate_net.specs.Net.{Always, IsNode};
ghost use Rattle.bit_gates.specs.Whole.{IsLeastWidth, width_of, whole};
ghost use Rattle.bit_gates.specs.Bits.{IsBits, number};
ghost use Rattle.bit_gates.specs.Digits.{resized_to};

use gate_net::{Net, Node};
use std::alloc::{AllocError, Global};

/// A whole number from `-most` to `most`: its nodes in two's complement, lowest first, and the bound.
#[derive(Debug, Drop)]
pub struct Bits {
    pub nodes: Vec<Node>,
    pub most: u128,
}

/// The width of bits with this bound: the least one at which two's complement has each number within the bound.
pub fn width(most: u128) -> usize
    ensures width { result ≡ width_of most }
    ensures least { IsLeastWidth result most }
{
    129 - most.leading_zeros() as usize
}

// The nodes cut to a width, or with the last one, which is the sign, repeated up to it.
pub(crate) fn resized(alloc: Global, nodes: &[Node], width: usize) -> Result<Vec<Node>, AllocError>
    requires { 0 < length nodes.now }
    ensures { IfOk result (λ resized. resized.items ≡ resized_to nodes.now width) }
{
    let sign = nodes[nodes.len() - 1];
    let mut resized = nodes.to_vec(alloc)?;
    resized.resize(width, sign)?;
    Ok(resized)
}

// The nodes of the same number at a width that isn't less.
pub(crate) fn at_width(net: &Net, a: &Bits, width: usize) -> Result<Vec<Node>, AllocError>
    requires bits { IsBits net.now a.now }
    requires small { a.now.most < 2 ^ 128 }
    requires wide { width_of a.now.most ≤ width }
    ensures width { IfOk result (λ nodes. length nodes.items ≡ width) }
    ensures nodes { IfOk result (λ nodes. All (IsNode net.now) nodes.items) }
    ensures value { IfOk result
        (λ nodes. Always net.now (λ value. whole (map value nodes.items) ≡ number value a.now)) }
{
    resized(net.allocator(), a.nodes.as_slice(), width)
}
