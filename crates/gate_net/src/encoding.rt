ghost use Rattle.std.specs.Prelude.{◌≡◌, ◌≢◌, ◌<◌, ◌≤◌, ◌+◌, ◌*◌, ◌^◌, [], ◌∷◌, ◌++◌, IfOk, OnOk, length};
ghost use Rattle.gate_net.specs.Net.{IsNode, Refers, nodes_of};
ghost use Rattle.gate_net.specs.Encoding.{StandsFor, variable_of, place_of, clause_of_one, clause_of_two, clause_of_three, operator_clauses, gate_clauses};
ghost use Rattle.gate_net.specs.declared.gate.Gate.TheVariants.{Binary};

use crate::gate::{Gate, Operator};
use crate::literal::Literal;
use crate::{Net, Node};
use clause_form::{Clause, Clauses};
use std::alloc::AllocError;

impl Net {
    /// The number of the node's variable in `clauses`: one more than its place. It takes no memory.
    pub fn variable(&self, node: Node) -> u32
        requires { IsNode self.now node }
        ensures { result ≡ variable_of node }
    {
        let _gates = &self.gates;
        node.place + 1
    }

    /// Clauses over one variable for each node (Tseitin): values of the inputs that make the root true have exactly
    /// one extension that satisfies them, and no other assignment does. There are at most four clauses for each
    /// node, and one for the root.
    ///
    /// Answers `AllocError` where memory is refused.
    pub fn clauses(&self, root: Node) -> Result<Clauses, AllocError>
        requires { IsNode self.now root }
        ensures variables { IfOk result (λ clauses. clauses.variables ≡ nodes_of self.now) }
        ensures few { IfOk result (λ clauses. length clauses.clauses.items ≤ 4 * nodes_of self.now + 1) }
        ensures meaning { IfOk result (λ clauses. StandsFor self.now root clauses.clauses.items) }
    {
        let mut clauses = Vec::new(*self.gates.allocator());
        for (place, gate) in self.gates.iter().enumerate() {
            let node = Node {
                place: place as u32,
            };
            push_gate(&mut clauses, node, *gate)?;
        }
        push_one(&mut clauses, Literal::Is(root))?;
        Ok(Clauses {
            variables: self.nodes(),
            clauses,
        })
    }
}

// The node has the value of its gate.
fn push_gate(clauses: &mut Vec<Clause>, node: Node, gate: Gate) -> Result<(), AllocError>
    requires small { node.place < 2 ^ 28 }
    requires earlier { Refers node.place gate }
    ensures { OnOk result (clauses.new.items ≡ clauses.old.items ++ gate_clauses node gate) }
{
    match gate {
        Gate::Constant(true) => push_one(clauses, Literal::Is(node)),
        Gate::Constant(false) => push_one(clauses, Literal::IsNot(node)),
        Gate::Input => Ok(()),
        Gate::Not(a) => {
            push_two(clauses, Literal::Is(node), Literal::Is(a))?;
            push_two(clauses, Literal::IsNot(node), Literal::IsNot(a))
        }
        Gate::Binary(operator, a, b) => push_binary(clauses, node, operator, a, b),
    }
}

// The node has the operator's value at the operands.
fn push_binary(
    clauses: &mut Vec<Clause>,
    node: Node,
    operator: Operator,
    a: Node,
    b: Node,
) -> Result<(), AllocError>
    requires small { node.place < 2 ^ 28 }
    requires earlier { Refers node.place (Binary operator a b) }
    ensures { OnOk result (clauses.new.items ≡ clauses.old.items ++ operator_clauses operator node a b) }
{
    let (yes, no) = (Literal::Is(node), Literal::IsNot(node));
    match operator {
        Operator::And => {
            push_two(clauses, no, Literal::Is(a))?;
            push_two(clauses, no, Literal::Is(b))?;
            push_three(clauses, yes, Literal::IsNot(a), Literal::IsNot(b))
        }
        Operator::Or => {
            push_two(clauses, yes, Literal::IsNot(a))?;
            push_two(clauses, yes, Literal::IsNot(b))?;
            push_three(clauses, no, Literal::Is(a), Literal::Is(b))
        }
        Operator::Xor => {
            push_three(clauses, no, Literal::Is(a), Literal::Is(b))?;
            push_three(clauses, no, Literal::IsNot(a), Literal::IsNot(b))?;
            push_three(clauses, yes, Literal::IsNot(a), Literal::Is(b))?;
            push_three(clauses, yes, Literal::Is(a), Literal::IsNot(b))
        }
    }
}

// Appends the clause of one literal.
fn push_one(clauses: &mut Vec<Clause>, x: Literal) -> Result<(), AllocError>
    requires { place_of x < 2 ^ 28 }
    ensures { OnOk result (clauses.new.items ≡ clauses.old.items ++ clause_of_one x ∷ []) }
{
    let clause = Clause::new(*clauses.allocator(), &[x.number()])?;
    clauses.push(clause)?;
    Ok(())
}

// Appends the clause of two literals of different nodes.
fn push_two(clauses: &mut Vec<Clause>, x: Literal, y: Literal) -> Result<(), AllocError>
    requires small { (place_of x < 2 ^ 28) × (place_of y < 2 ^ 28) }
    requires apart { place_of x ≢ place_of y }
    ensures { OnOk result (clauses.new.items ≡ clauses.old.items ++ clause_of_two x y ∷ []) }
{
    let clause = Clause::new(*clauses.allocator(), &[x.number(), y.number()])?;
    clauses.push(clause)?;
    Ok(())
}

// Appends the clause of three literals of different nodes.
fn push_three(
    clauses: &mut Vec<Clause>,
    x: Literal,
    y: Literal,
    z: Literal,
) -> Result<(), AllocError>
    requires small { (place_of x < 2 ^ 28) × (place_of y < 2 ^ 28) × (place_of z < 2 ^ 28) }
    requires apart { (place_of x ≢ place_of y) × (place_of x ≢ place_of z) × (place_of y ≢ place_of z) }
    ensures { OnOk result (clauses.new.items ≡ clauses.old.items ++ clause_of_three x y z ∷ []) }
{
    let clause = Clause::new(*clauses.allocator(), &[x.number(), y.number(), z.number()])?;
    clauses.push(clause)?;
    Ok(())
}
