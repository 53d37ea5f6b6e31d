ghost use Rattle.std.specs.Prelude.{◌≡◌, ◌≤◌, ◌<◌, ◌+◌, ◌*◌, ◌^◌, ℕ, not, ◌&&◌, ◌||◌, IfOk, length};
ghost use Rattle.std.specs.List.{All};
ghost use Rattle.gate_net.specs.Net.{Always, Grows, IsNode, nodes_of};
ghost use Rattle.relation_gates.specs.Relations.{IsMatrix, IsRow, edge, member};
ghost use Rattle.relation_gates.specs.Sets.{combined};

use crate::{Matrix, Row};
use gate_net::{Net, Node};
use std::alloc::AllocError;

// The operations on sets.
#[derive(Clone, Copy)]
pub(crate) enum Operation {
    Union,
    Inter,
    Minus,
}

/// The objects in either of two sets. Over n objects it adds at most 2 * n nodes.
///
/// Answers `AllocError` where memory is refused. Earlier nodes keep their values, also then.
pub fn row_union(net: &mut Net, a: &Row, b: &Row) -> Result<Row, AllocError>
    requires first { IsRow net.old (length a.now) a.now }
    requires second { IsRow net.old (length a.now) b.now }
    requires room { nodes_of net.old + 2 * length a.now ≤ 2 ^ 28 }
    ensures grows { Grows (2 * length a.now) net.old net.new }
    ensures row { IfOk result (λ row. IsRow net.new (length a.now) row) }
    ensures value { IfOk result (λ row. Always net.new (λ value. (y : ℕ) → y < length a.now →
        member value row y ≡ (member value a.now y || member value b.now y))) }
{
    combine_rows(net, Operation::Union, a, b)
}

/// The objects in both of two sets. Over n objects it adds at most 2 * n nodes.
///
/// Answers `AllocError` where memory is refused. Earlier nodes keep their values, also then.
pub fn row_inter(net: &mut Net, a: &Row, b: &Row) -> Result<Row, AllocError>
    requires first { IsRow net.old (length a.now) a.now }
    requires second { IsRow net.old (length a.now) b.now }
    requires room { nodes_of net.old + 2 * length a.now ≤ 2 ^ 28 }
    ensures grows { Grows (2 * length a.now) net.old net.new }
    ensures row { IfOk result (λ row. IsRow net.new (length a.now) row) }
    ensures value { IfOk result (λ row. Always net.new (λ value. (y : ℕ) → y < length a.now →
        member value row y ≡ (member value a.now y && member value b.now y))) }
{
    combine_rows(net, Operation::Inter, a, b)
}

/// The objects in the first alone of two sets. Over n objects it adds at most 2 * n nodes.
///
/// Answers `AllocError` where memory is refused. Earlier nodes keep their values, also then.
pub fn row_minus(net: &mut Net, a: &Row, b: &Row) -> Result<Row, AllocError>
    requires first { IsRow net.old (length a.now) a.now }
    requires second { IsRow net.old (length a.now) b.now }
    requires room { nodes_of net.old + 2 * length a.now ≤ 2 ^ 28 }
    ensures grows { Grows (2 * length a.now) net.old net.new }
    ensures row { IfOk result (λ row. IsRow net.new (length a.now) row) }
    ensures value { IfOk result (λ row. Always net.new (λ value. (y : ℕ) → y < length a.now →
        member value row y ≡ (member value a.now y && not (member value b.now y)))) }
{
    combine_rows(net, Operation::Minus, a, b)
}

/// The pairs in either of two relations. Over n objects it adds at most 2 * n * n nodes.
///
/// Answers `AllocError` where memory is refused. Earlier nodes keep their values, also then.
pub fn union(net: &mut Net, a: &Matrix, b: &Matrix) -> Result<Matrix, AllocError>
    requires first { IsMatrix net.old (length a.now) a.now }
    requires second { IsMatrix net.old (length a.now) b.now }
    requires room { nodes_of net.old + 2 * length a.now * length a.now ≤ 2 ^ 28 }
    ensures grows { Grows (2 * length a.now * length a.now) net.old net.new }
    ensures matrix { IfOk result (λ matrix. IsMatrix net.new (length a.now) matrix) }
    ensures value { IfOk result (λ matrix. Always net.new (λ value. (x y : ℕ) → x < length a.now → y < length a.now →
        edge value matrix x y ≡ (edge value a.now x y || edge value b.now x y))) }
{
    combine(net, Operation::Union, a, b)
}

/// The pairs in both of two relations. Over n objects it adds at most 2 * n * n nodes.
///
/// Answers `AllocError` where memory is refused. Earlier nodes keep their values, also then.
pub fn inter(net: &mut Net, a: &Matrix, b: &Matrix) -> Result<Matrix, AllocError>
    requires first { IsMatrix net.old (length a.now) a.now }
    requires second { IsMatrix net.old (length a.now) b.now }
    requires room { nodes_of net.old + 2 * length a.now * length a.now ≤ 2 ^ 28 }
    ensures grows { Grows (2 * length a.now * length a.now) net.old net.new }
    ensures matrix { IfOk result (λ matrix. IsMatrix net.new (length a.now) matrix) }
    ensures value { IfOk result (λ matrix. Always net.new (λ value. (x y : ℕ) → x < length a.now → y < length a.now →
        edge value matrix x y ≡ (edge value a.now x y && edge value b.now x y))) }
{
    combine(net, Operation::Inter, a, b)
}

/// The pairs in the first alone of two relations. Over n objects it adds at most 2 * n * n nodes.
///
/// Answers `AllocError` where memory is refused. Earlier nodes keep their values, also then.
pub fn minus(net: &mut Net, a: &Matrix, b: &Matrix) -> Result<Matrix, AllocError>
    requires first { IsMatrix net.old (length a.now) a.now }
    requires second { IsMatrix net.old (length a.now) b.now }
    requires room { nodes_of net.old + 2 * length a.now * length a.now ≤ 2 ^ 28 }
    ensures grows { Grows (2 * length a.now * length a.now) net.old net.new }
    ensures matrix { IfOk result (λ matrix. IsMatrix net.new (length a.now) matrix) }
    ensures value { IfOk result (λ matrix. Always net.new (λ value. (x y : ℕ) → x < length a.now → y < length a.now →
        edge value matrix x y ≡ (edge value a.now x y && not (edge value b.now x y)))) }
{
    combine(net, Operation::Minus, a, b)
}

// The operation on two sets, object by object.
fn combine_rows(net: &mut Net, operation: Operation, a: &Row, b: &Row) -> Result<Row, AllocError>
    requires first { IsRow net.old (length a.now) a.now }
    requires second { IsRow net.old (length a.now) b.now }
    requires room { nodes_of net.old + 2 * length a.now ≤ 2 ^ 28 }
    ensures grows { Grows (2 * length a.now) net.old net.new }
    ensures row { IfOk result (λ row. IsRow net.new (length a.now) row) }
    ensures value { IfOk result (λ row. Always net.new (λ value. (y : ℕ) → y < length a.now →
        member value row y ≡ combined operation (member value a.now y) (member value b.now y))) }
{
    let (first, second) = (a.nodes(), b.nodes());
    let mut nodes = Vec::with_capacity(net.allocator(), first.len())?;
    for y in 0..first.len() {
        nodes.push(combine_nodes(net, operation, first[y], second[y])?)?;
    }
    Ok(Row { nodes })
}

// The operation at one object.
fn combine_nodes(net: &mut Net, operation: Operation, a: Node, b: Node) -> Result<Node, AllocError>
    requires room { nodes_of net.old + 2 ≤ 2 ^ 28 }
    requires first { IsNode net.old a }
    requires second { IsNode net.old b }
    ensures grows { Grows 2 net.old net.new }
    ensures node { IfOk result (λ n. IsNode net.new n) }
    ensures value { IfOk result (λ n. Always net.new (λ value. value n ≡ combined operation (value a) (value b))) }
{
    match operation {
        Operation::Union => net.or(a, b),
        Operation::Inter => net.and(a, b),
        Operation::Minus => {
            let other = net.not(b)?;
            net.and(a, other)
        }
    }
}

// The operation on two relations, row by row.
fn combine(
    net: &mut Net,
    operation: Operation,
    a: &Matrix,
    b: &Matrix,
) -> Result<Matrix, AllocError>
    requires first { IsMatrix net.old (length a.now) a.now }
    requires second { IsMatrix net.old (length a.now) b.now }
    requires room { nodes_of net.old + 2 * length a.now * length a.now ≤ 2 ^ 28 }
    ensures grows { Grows (2 * length a.now * length a.now) net.old net.new }
    ensures matrix { IfOk result (λ matrix. IsMatrix net.new (length a.now) matrix) }
    ensures value { IfOk result (λ matrix. Always net.new (λ value. (x y : ℕ) → x < length a.now → y < length a.now →
        edge value matrix x y ≡ combined operation (edge value a.now x y) (edge value b.now x y))) }
{
    let (first, second) = (a.rows(), b.rows());
    let mut rows = Vec::with_capacity(net.allocator(), first.len())?;
    for x in 0..first.len() {
        rows.push(combine_rows(net, operation, &first[x], &second[x])?)?;
    }
    Ok(Matrix { rows })
}
