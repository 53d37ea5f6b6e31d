ghost use Rattle.std.specs.Prelude.{◌≡◌, ◌≤◌, ◌+◌, ◌*◌, ◌^◌, ℕ, Bool, IfOk, length, map, if◌then◌else◌};
ghost use Rattle.std.specs.List.{All};
ghost use Rattle.gate_net.specs.Net.{Always, IsNode, Grows, nodes_of};
ghost use Rattle.bit_gates.specs.Whole.{bit, unsigned};
ghost use Rattle.bit_gates.specs.Digits.{IsStep, IsJoin};

use gate_net::{Net, Node};
use std::alloc::AllocError;

// How two numbers are joined digit by digit.
#[derive(Clone, Copy)]
pub(crate) enum Rule {
    Sum,
    Difference,
}

// A digit of the result, and what is carried to the next one, or borrowed from it.
#[derive(Clone, Copy)]
pub(crate) struct Digit {
    pub(crate) value: Node,
    pub(crate) carry: Node,
}

// The digits of a result, and what the last one carries or borrows.
#[derive(Drop)]
pub(crate) struct Joined {
    pub(crate) values: Vec<Node>,
    pub(crate) carry: Node,
}

// A node with the value of `yes` where `test` is true, and else with that of `no`.
pub(crate) fn choose(net: &mut Net, test: Node, yes: Node, no: Node) -> Result<Node, AllocError>
    requires room { nodes_of net.old + 3 ≤ 2 ^ 28 }
    requires test { IsNode net.old test }
    requires yes { IsNode net.old yes }
    requires no { IsNode net.old no }
    ensures grows { Grows 3 net.old net.new }
    ensures node { IfOk result (λ n. IsNode net.new n) }
    ensures value { IfOk result
        (λ n. Always net.new (λ value. value n ≡ (if value test then value yes else value no))) }
{
    let differ = net.xor(yes, no)?;
    let passed = net.and(test, differ)?;
    net.xor(no, passed)
}

// One digit of a sum or a difference.
pub(crate) fn join_digit(
    net: &mut Net,
    rule: Rule,
    x: Node,
    y: Node,
    carry: Node,
) -> Result<Digit, AllocError>
    requires room { nodes_of net.old + 5 ≤ 2 ^ 28 }
    requires x { IsNode net.old x }
    requires y { IsNode net.old y }
    requires carry { IsNode net.old carry }
    ensures grows { Grows 5 net.old net.new }
    ensures value_node { IfOk result (λ d. IsNode net.new d.value) }
    ensures carry_node { IfOk result (λ d. IsNode net.new d.carry) }
    ensures value { IfOk result (λ d. Always net.new (λ value.
        IsStep rule (value x) (value y) (value carry) (value d.value) (value d.carry))) }
{
    let differ = net.xor(x, y)?;
    let value = net.xor(differ, carry)?;
    let carry = match rule {
        Rule::Sum => choose(net, differ, carry, x)?,
        Rule::Difference => choose(net, differ, y, carry)?,
    };
    Ok(Digit { value, carry })
}

// The sum or the difference of two numbers of one width, digit by digit.
pub(crate) fn join(
    net: &mut Net,
    rule: Rule,
    xs: &[Node],
    ys: &[Node],
) -> Result<Joined, AllocError>
    requires same { length ys.now ≡ length xs.now }
    requires xs { All (IsNode net.old) xs.now }
    requires ys { All (IsNode net.old) ys.now }
    requires room { nodes_of net.old + 5 * length xs.now ≤ 2 ^ 28 }
    ensures grows { Grows (5 * length xs.now) net.old net.new }
    ensures width { IfOk result (λ d. length d.values.items ≡ length xs.now) }
    ensures nodes { IfOk result (λ d. All (IsNode net.new) d.values.items) }
    ensures carry { IfOk result (λ d. IsNode net.new d.carry) }
    ensures value { IfOk result (λ d. Always net.new (λ value. IsJoin rule
        (unsigned (map value xs.now)) (unsigned (map value ys.now)) (unsigned (map value d.values.items))
        (bit (value d.carry) * 2 ^ length xs.now))) }
{
    let mut values = Vec::with_capacity(net.allocator(), xs.len())?;
    let mut carry = net.constant(false);
    for i in 0..xs.len() {
        let digit = join_digit(net, rule, xs[i], ys[i], carry)?;
        values.push(digit.value)?;
        carry = digit.carry;
    }
    Ok(Joined { values, carry })
}
