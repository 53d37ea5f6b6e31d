ghost use Rattle.std.specs.Prelude.{◌≡◌};
ghost use Rattle.gate_net.specs.Net.{applied};

use crate::Node;

/// The gates that have two operands.
#[derive(Clone, Copy, Debug)]
pub enum Operator {
    And,
    Or,
    Xor,
}

/// What makes a node's value: nothing, an input, or earlier nodes.
#[derive(Clone, Copy, Debug)]
pub enum Gate {
    Constant(bool),
    Input,
    Not(Node),
    Binary(Operator, Node, Node),
}

impl Operator {
    /// The operator's value at these operands.
    pub fn apply(self, first: bool, second: bool) -> bool
        ensures { result ≡ applied self first second }
    {
        match self {
            Operator::And => first && second,
            Operator::Or => first || second,
            Operator::Xor => first != second,
        }
    }
}
