//! The circuits: a relation whose pairs are inputs, and numbers that count where an input is true.

ghost use Rattle.std.specs.Prelude.{◌≡◌, ◌<◌, ◌≤◌, ◌+◌, ◌*◌, ◌^◌, IfOk, OnOk, length};
ghost use Rattle.std.specs.List.{All};
ghost use Rattle.gate_net.specs.Net.{Continues, IsNode, nodes_of};
ghost use Rattle.bit_gates.specs.Whole.{width_of};
ghost use Rattle.bit_gates.specs.Totals.{IsPart, bounds, widths};
ghost use Rattle.relation_gates.specs.Relations.{IsMatrix, IsRow};

use bit_gates::{Bits, constant, sum};
use gate_net::{Net, Node};
use relation_gates::{Matrix, Row, closure};
use std::alloc::{AllocError, Global};

/// The most objects of a relation.
pub(crate) const MOST_OBJECTS: usize = 100;

/// The most numbers of a sum.
pub(crate) const MOST_NUMBERS: usize = 1000;

// The greatest number of 32 bits with a sign.
const NUMBER: i128 = 2147483647;

/// How many nodes the closure of a relation adds.
pub(crate) fn closure_nodes(alloc: Global, objects: usize) -> Result<usize, AllocError>
    requires { objects ≤ 100 }
{
    let mut net = Net::new(alloc)?;
    let r = relation(&mut net, objects)?;
    let before = net.nodes();
    let _paths = closure(&mut net, &r)?;
    Ok((net.nodes() - before) as usize)
}

/// How many clauses stand for a path from the first object to itself, or for a constant where there is none.
pub(crate) fn closure_clauses(alloc: Global, objects: usize) -> Result<usize, AllocError>
    requires { objects ≤ 100 }
{
    let mut net = Net::new(alloc)?;
    let r = relation(&mut net, objects)?;
    let paths = closure(&mut net, &r)?;
    let root = first(&net, &paths);
    let clauses = net.clauses(root)?;
    Ok(clauses.clauses.len())
}

/// How many nodes the sum of that many numbers adds.
pub(crate) fn sum_nodes(alloc: Global, numbers: usize) -> Result<usize, AllocError>
    requires { numbers ≤ 1000 }
{
    let mut net = Net::new(alloc)?;
    let parts = parts(&mut net, numbers)?;
    let before = net.nodes();
    let _total = sum(&mut net, parts.as_slice())?;
    Ok((net.nodes() - before) as usize)
}

// The node of the first object's pair with itself.
fn first(net: &Net, paths: &Matrix) -> Node
    requires { IsMatrix net.now (length paths.now) paths.now }
    ensures { IsNode net.now result }
{
    match paths.rows().first() {
        Some(row) => row.nodes()[0],
        None => net.constant(true),
    }
}

// A set whose members are inputs.
fn set(net: &mut Net, objects: usize) -> Result<Row, AllocError>
    requires objects { objects ≤ 100 }
    requires room { nodes_of net.old + 100 ≤ 2 ^ 28 }
    ensures begins { Continues net.old net.new }
    ensures row { IfOk result (λ row. IsRow net.new objects row) }
    ensures nodes { OnOk result (nodes_of net.new ≤ nodes_of net.old + 100) }
{
    let mut nodes = Vec::new(net.allocator());
    for _ in 0..objects {
        let node = net.input()?;
        nodes.push(node)?;
    }
    Ok(Row { nodes })
}

// A relation whose pairs are inputs.
fn relation(net: &mut Net, objects: usize) -> Result<Matrix, AllocError>
    requires objects { objects ≤ 100 }
    requires room { nodes_of net.old + 10000 ≤ 2 ^ 28 }
    ensures begins { Continues net.old net.new }
    ensures matrix { IfOk result (λ matrix. IsMatrix net.new objects matrix) }
    ensures nodes { OnOk result (nodes_of net.new ≤ nodes_of net.old + 10000) }
{
    let mut rows = Vec::new(net.allocator());
    for _ in 0..objects {
        let row = set(net, objects)?;
        rows.push(row)?;
    }
    Ok(Matrix { rows })
}

// That many parts of a sum: an input, and the number that counts where it is true.
fn parts(net: &mut Net, times: usize) -> Result<Vec<(Node, Bits)>, AllocError>
    requires times { times ≤ 1000 }
    requires room { nodes_of net.old + 1000 ≤ 2 ^ 28 }
    ensures parts { IfOk result (λ parts. All (IsPart net.new) parts.items) }
    ensures count { IfOk result (λ parts. length parts.items ≡ times) }
    ensures nodes { OnOk result (nodes_of net.new ≤ nodes_of net.old + 1000) }
    ensures bounds { IfOk result (λ parts. bounds parts.items ≡ 2147483647 * times) }
    ensures widths { IfOk result (λ parts. widths parts.items ≡ width_of 2147483647 * times) }
{
    let mut parts = Vec::with_capacity(net.allocator(), times)?;
    for _ in 0..times {
        let counts = net.input()?;
        let number = constant(net, NUMBER)?;
        parts.push((counts, number))?;
    }
    Ok(parts)
}
