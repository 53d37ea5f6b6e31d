ghost use Rattle.std.specs.Prelude.{◌≡◌, ◌<◌, ◌^◌};
ghost use Rattle.gate_net.specs.Encoding.{number_of, place_of};

use crate::Node;
use clause_form::negated;

/// That a node is true, or that it is false.
#[derive(Clone, Copy, Debug)]
pub enum Literal {
    Is(Node),
    IsNot(Node),
}

impl Literal {
    /// The variable's number, or its negation.
    pub fn number(self) -> i32
        requires { place_of self < 2 ^ 28 }
        ensures { result ≡ number_of self }
    {
        match self {
            Literal::Is(node) => (node.place + 1) as i32,
            Literal::IsNot(node) => negated((node.place + 1) as i32),
        }
    }
}
