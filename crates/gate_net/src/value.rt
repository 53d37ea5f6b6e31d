ghost use Rattle.std.specs.Prelude.{◌≡◌, ◌+◌, ◌≤◌, IfOk, length};
ghost use Rattle.gate_net.specs.Net.{IsNode, IsNet, Refers, node_value, inputs_of, values_of, gate_value, one_if_input};

use crate::gate::Gate;
use crate::{Net, Node};
use std::alloc::{AllocError, Global};

impl Net {
    /// The value of a node, where the inputs have these values in the order in which they were made.
    ///
    /// Answers `AllocError` where memory is refused.
    pub fn value(&self, node: Node, inputs: &[bool]) -> Result<bool, AllocError>
        requires node { IsNode self.now node }
        requires inputs { length inputs.now ≡ inputs_of self.now }
        ensures { IfOk result (λ value. value ≡ node_value self.now inputs.now node) }
    {
        let values = values(*self.gates.allocator(), self.gates.as_slice(), inputs)?;
        Ok(values[node.place as usize])
    }
}

// The values of all nodes.
fn values(alloc: Global, gates: &[Gate], inputs: &[bool]) -> Result<Vec<bool>, AllocError>
    requires net { IsNet gates.now }
    requires inputs { length inputs.now ≡ inputs_of gates.now }
    ensures { IfOk result (λ values. values.items ≡ values_of inputs.now gates.now) }
{
    let mut values = Vec::with_capacity(alloc, gates.len())?;
    let mut next = 0;
    for gate in gates {
        let value = value_at(*gate, inputs, next, values.as_slice());
        values.push(value)?;
        next += inputs_at(*gate);
    }
    Ok(values)
}

// The value of a gate, where the next input has this number.
fn value_at(gate: Gate, inputs: &[bool], next: usize, values: &[bool]) -> bool
    requires earlier { Refers (length values.now) gate }
    requires inputs { next + one_if_input gate ≤ length inputs.now }
    ensures { result ≡ gate_value inputs.now next values.now gate }
{
    match gate {
        Gate::Constant(value) => value,
        Gate::Input => inputs[next],
        Gate::Not(a) => !values[a.place as usize],
        Gate::Binary(operator, a, b) => {
            operator.apply(values[a.place as usize], values[b.place as usize])
        }
    }
}

// How many inputs the gate is.
fn inputs_at(gate: Gate) -> usize
    ensures { result ≡ one_if_input gate }
{
    match gate {
        Gate::Input => 1,
        _ => 0,
    }
}
