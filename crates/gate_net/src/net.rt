ghost use Rattle.std.specs.Prelude.{◌≡◌, ◌+◌, ◌<◌, ◌≤◌, ◌^◌, Bool, true, false, not, ◌&&◌, ◌||◌, List, ◌∷◌, ◌++◌, [], length, IfOk, OnOk, OnErr, slice_index_or};
ghost use Rattle.gate_net.specs.Net.{Always, IsNode, IsNet, Refers, Continues, KeepsValues, Grows, differ, node_value, nodes_of, inputs_of};
ghost use Rattle.gate_net.specs.declared.gate.Gate.{Gate};
ghost use Rattle.gate_net.specs.declared.gate.Gate.TheVariants.{Constant, Input};

use crate::Node;
use crate::gate::{Gate, Operator};
use std::alloc::{AllocError, Global};
use std::marker::Model;

/// A growing list of nodes. Contracts see it as the list of its gates.
#[derive(Debug, Drop)]
pub struct Net {
    pub(crate) gates: Vec<Gate>,
}

impl Model for Net {
    ghost use Rattle.std.specs.Prelude.{List};
    ghost use Rattle.gate_net.specs.declared.gate.Gate.{Gate};
    ghost use Rattle.gate_net.specs.Net.{IsNet};

    ghost Value = { List Gate };

    ghost view = { λ net. net.gates.items };

    ghost invariant = { λ net. IsNet net.gates.items };
}

impl Net {
    /// A net that holds the two constants, and no input.
    ///
    /// Answers `AllocError` where memory is refused.
    pub fn new(alloc: Global) -> Result<Net, AllocError>
        ensures nodes { IfOk result (λ net. nodes_of net ≡ 2) }
        ensures inputs { IfOk result (λ net. inputs_of net ≡ 0) }
    {
        let gates = vec![in alloc; Gate::Constant(false), Gate::Constant(true)]?;
        Ok(Net { gates })
    }

    /// One of the two constants. It takes no memory.
    pub fn constant(&self, value: bool) -> Node
        ensures node { IsNode self.now result }
        ensures value { Always self.now (λ values. values result ≡ value) }
    {
        let _gates = &self.gates;
        Node {
            place: u32::from(value),
        }
    }

    /// How many nodes there are, the constants among them. It takes no memory.
    pub fn nodes(&self) -> u32
        ensures count { result ≡ nodes_of self.now }
        ensures few { result ≤ 2 ^ 28 }
    {
        self.gates.len() as u32
    }

    /// The allocator that the net's memory comes from.
    pub fn allocator(&self) -> Global {
        *self.gates.allocator()
    }

    /// Makes an input, whose value is that of the next place among the inputs' values.
    ///
    /// Answers `AllocError` where memory is refused: the net is then unchanged.
    pub fn input(&mut self) -> Result<Node, AllocError>
        requires { nodes_of self.old < 2 ^ 28 }
        ensures begins { Continues self.old self.new }
        ensures node { IfOk result (λ n. IsNode self.new n) }
        ensures value { IfOk result (λ n.
            (inputs : List Bool) → node_value self.new inputs n ≡ slice_index_or inputs (inputs_of self.old) false) }
        ensures nodes { OnOk result (nodes_of self.new ≡ nodes_of self.old + 1) }
        ensures inputs { OnOk result (inputs_of self.new ≡ inputs_of self.old + 1) }
        ensures kept { KeepsValues self.old self.new }
        ensures refused { OnErr result (self.new ≡ self.old) }
    {
        self.add(Gate::Input)
    }

    /// A node that is true where `a` is not. At most one node is added.
    ///
    /// Answers `AllocError` where memory is refused: the net is then unchanged.
    pub fn not(&mut self, a: Node) -> Result<Node, AllocError>
        requires room { nodes_of self.old < 2 ^ 28 }
        requires operand { IsNode self.old a }
        ensures grows { Grows 1 self.old self.new }
        ensures node { IfOk result (λ n. IsNode self.new n) }
        ensures value { IfOk result (λ n. Always self.new (λ value. value n ≡ not (value a))) }
        ensures refused { OnErr result (self.new ≡ self.old) }
    {
        self.add(Gate::Not(a))
    }

    /// A node that is true where both are. At most one node is added.
    ///
    /// Answers `AllocError` where memory is refused: the net is then unchanged.
    pub fn and(&mut self, a: Node, b: Node) -> Result<Node, AllocError>
        requires room { nodes_of self.old < 2 ^ 28 }
        requires first { IsNode self.old a }
        requires second { IsNode self.old b }
        ensures grows { Grows 1 self.old self.new }
        ensures node { IfOk result (λ n. IsNode self.new n) }
        ensures value { IfOk result (λ n. Always self.new (λ value. value n ≡ (value a && value b))) }
        ensures refused { OnErr result (self.new ≡ self.old) }
    {
        if a.place == b.place {
            return Ok(a);
        }
        self.add(Gate::Binary(Operator::And, a, b))
    }

    /// A node that is true where one of the two is, or both are. At most one node is added.
    ///
    /// Answers `AllocError` where memory is refused: the net is then unchanged.
    pub fn or(&mut self, a: Node, b: Node) -> Result<Node, AllocError>
        requires room { nodes_of self.old < 2 ^ 28 }
        requires first { IsNode self.old a }
        requires second { IsNode self.old b }
        ensures grows { Grows 1 self.old self.new }
        ensures node { IfOk result (λ n. IsNode self.new n) }
        ensures value { IfOk result (λ n. Always self.new (λ value. value n ≡ (value a || value b))) }
        ensures refused { OnErr result (self.new ≡ self.old) }
    {
        if a.place == b.place {
            return Ok(a);
        }
        self.add(Gate::Binary(Operator::Or, a, b))
    }

    /// A node that is true where exactly one of the two is. At most one node is added.
    ///
    /// Answers `AllocError` where memory is refused: the net is then unchanged.
    pub fn xor(&mut self, a: Node, b: Node) -> Result<Node, AllocError>
        requires room { nodes_of self.old < 2 ^ 28 }
        requires first { IsNode self.old a }
        requires second { IsNode self.old b }
        ensures grows { Grows 1 self.old self.new }
        ensures node { IfOk result (λ n. IsNode self.new n) }
        ensures value { IfOk result (λ n. Always self.new (λ value. value n ≡ differ (value a) (value b))) }
        ensures refused { OnErr result (self.new ≡ self.old) }
    {
        if a.place == b.place {
            return Ok(self.constant(false));
        }
        self.add(Gate::Binary(Operator::Xor, a, b))
    }

    // Appends a gate over nodes of the net.
    fn add(&mut self, gate: Gate) -> Result<Node, AllocError>
        requires room { nodes_of self.old < 2 ^ 28 }
        requires earlier { Refers (nodes_of self.old) gate }
        ensures appended { OnOk result (self.new ≡ self.old ++ gate ∷ []) }
        ensures node { IfOk result (λ n. n.place ≡ nodes_of self.old) }
        ensures refused { OnErr result (self.new ≡ self.old) }
    {
        let place = self.gates.len() as u32;
        self.gates.push(gate)?;
        Ok(Node { place })
    }
}
