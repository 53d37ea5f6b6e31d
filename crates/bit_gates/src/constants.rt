ghost use Rattle.std.specs.Prelude.{◌≡◌, ◌<◌, ◌≤◌, ◌^◌, IfOk, length, map, unsigned_abs};
ghost use Rattle.std.specs.List.{All};
ghost use Rattle.gate_net.specs.Net.{Always, IsNode};
ghost use Rattle.bit_gates.specs.Whole.{unsigned};
ghost use Rattle.bit_gates.specs.Bits.{IsBits, number};

use crate::Bits;
use crate::bits::width;
use gate_net::{Net, Node};
use std::alloc::AllocError;

/// The bits of a number, whose bound is its magnitude. The net stays as it is.
///
/// Answers `AllocError` where memory is refused.
pub fn constant(net: &mut Net, n: i128) -> Result<Bits, AllocError>
    requires { unsigned_abs n ≤ 2 ^ 80 }
    ensures grows { net.new ≡ net.old }
    ensures bits { IfOk result (λ bits. IsBits net.new bits) }
    ensures most { IfOk result (λ bits. bits.most ≡ unsigned_abs n) }
    ensures value { IfOk result (λ bits. Always net.new (λ value. number value bits ≡ n)) }
{
    let most = n.unsigned_abs();
    let width = width(most);
    let pattern = if n < 0 { (1 << width) - most } else { most };
    let nodes = binary(net, pattern, width)?;
    Ok(Bits { nodes, most })
}

// The binary digits of a number, lowest first.
fn binary(net: &Net, pattern: u128, width: usize) -> Result<Vec<Node>, AllocError>
    requires { pattern < 2 ^ width }
    ensures width { IfOk result (λ nodes. length nodes.items ≡ width) }
    ensures nodes { IfOk result (λ nodes. All (IsNode net.now) nodes.items) }
    ensures value { IfOk result (λ nodes. Always net.now (λ value. unsigned (map value nodes.items) ≡ pattern)) }
{
    let mut nodes = Vec::with_capacity(net.allocator(), width)?;
    let mut rest = pattern;
    for _ in 0..width {
        nodes.push(net.constant(rest % 2 == 1))?;
        rest /= 2;
    }
    Ok(nodes)
}
