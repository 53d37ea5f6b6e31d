ghost use Rattle.std.specs.Prelude.{◌≡◌, ◌≤◌, ◌+◌, ◌*◌, ◌^◌, Bool, IfOk, length, map};
ghost use Rattle.std.specs.List.{All};
ghost use Rattle.gate_net.specs.Net.{Always, IsNode, Grows, nodes_of};
ghost use Rattle.bit_gates.specs.Whole.{bit, unsigned};
ghost use Rattle.bit_gates.specs.Digits.{IsNegation};

use crate::digits::Digit;
use gate_net::{Net, Node};
use std::alloc::AllocError;

// One digit of 0 less a number.
fn negate_digit(net: &mut Net, y: Node, borrow: Node) -> Result<Digit, AllocError>
    requires room { nodes_of net.old + 2 ≤ 2 ^ 28 }
    requires y { IsNode net.old y }
    requires borrow { IsNode net.old borrow }
    ensures grows { Grows 2 net.old net.new }
    ensures value_node { IfOk result (λ d. IsNode net.new d.value) }
    ensures carry_node { IfOk result (λ d. IsNode net.new d.carry) }
    ensures value { IfOk result (λ d. Always net.new (λ value.
        bit (value d.value) + bit (value y) + bit (value borrow) ≡ 2 * bit (value d.carry))) }
{
    let value = net.xor(y, borrow)?;
    let carry = net.or(y, borrow)?;
    Ok(Digit { value, carry })
}

// The digits of 0 less a number, as many as the number has.
pub(crate) fn negated(net: &mut Net, ys: &[Node]) -> Result<Vec<Node>, AllocError>
    requires ys { All (IsNode net.old) ys.now }
    requires room { nodes_of net.old + 2 * length ys.now ≤ 2 ^ 28 }
    ensures grows { Grows (2 * length ys.now) net.old net.new }
    ensures width { IfOk result (λ nodes. length nodes.items ≡ length ys.now) }
    ensures nodes { IfOk result (λ nodes. All (IsNode net.new) nodes.items) }
    ensures value { IfOk result (λ nodes. Always net.new (λ value.
        IsNegation (unsigned (map value ys.now)) (unsigned (map value nodes.items)) (2 ^ length ys.now))) }
{
    let mut values = Vec::with_capacity(net.allocator(), ys.len())?;
    let mut borrow = net.constant(false);
    for i in 0..ys.len() {
        let digit = negate_digit(net, ys[i], borrow)?;
        values.push(digit.value)?;
        borrow = digit.carry;
    }
    Ok(values)
}
