ghost use Rattle.std.specs.Prelude.{◌≡◌, ◌≤◌, ◌<◌, ◌+◌, ◌*◌, ◌^◌, ◌↔◌, ◌&&◌, ℕ, [], IsTrue, IfOk, length, slice_index_or};
ghost use Rattle.gate_net.specs.Net.{Always, Grows, IsNode, nodes_of};
ghost use Rattle.relation_gates.specs.Relations.{IsMatrix, IsRow, IsImage, IsJoined, edge, member};
ghost use Rattle.relation_gates.specs.Sets.{some_below};

use crate::{Matrix, Row};
use gate_net::{Net, Node};
use std::alloc::AllocError;

/// The objects to which an edge leads from a member of a set. Over n objects it adds at most 2 * n * n nodes.
///
/// Answers `AllocError` where memory is refused. Earlier nodes keep their values, also then.
pub fn image(net: &mut Net, s: &Row, r: &Matrix) -> Result<Row, AllocError>
    requires set { IsRow net.old (length r.now) s.now }
    requires relation { IsMatrix net.old (length r.now) r.now }
    requires room { nodes_of net.old + 2 * length r.now * length r.now ≤ 2 ^ 28 }
    ensures grows { Grows (2 * length r.now * length r.now) net.old net.new }
    ensures row { IfOk result (λ row. IsRow net.new (length r.now) row) }
    ensures value { IfOk result (λ row. Always net.new (λ value. (y : ℕ) → y < length r.now →
        IsTrue (member value row y) ↔ IsImage value (length r.now) s.now r.now y)) }
{
    image_row(net, s, r)
}

/// The pairs that an edge of the first relation and then one of the second join. Over n objects it adds at most
/// 2 * n * n * n nodes.
///
/// Answers `AllocError` where memory is refused. Earlier nodes keep their values, also then.
pub fn join(net: &mut Net, r: &Matrix, s: &Matrix) -> Result<Matrix, AllocError>
    requires first { IsMatrix net.old (length s.now) r.now }
    requires second { IsMatrix net.old (length s.now) s.now }
    requires room { nodes_of net.old + 2 * length s.now * length s.now * length s.now ≤ 2 ^ 28 }
    ensures grows { Grows (2 * length s.now * length s.now * length s.now) net.old net.new }
    ensures matrix { IfOk result (λ matrix. IsMatrix net.new (length s.now) matrix) }
    ensures value { IfOk result (λ matrix. Always net.new (λ value. (x z : ℕ) → x < length s.now → z < length s.now →
        IsTrue (edge value matrix x z) ↔ IsJoined value (length s.now) r.now s.now x z)) }
{
    join_rows(net, r, s)
}

// The node at a place of a matrix.
pub(crate) fn entry(rows: &[Row], x: usize, y: usize) -> Node
    requires row { x < length rows.now }
    requires column { y < length (slice_index_or rows.now x []) }
    ensures { result ≡ slice_index_or (slice_index_or rows.now x []) y (record { place = 0 }) }
{
    rows[x].nodes()[y]
}

// The same, as a test.
fn image_row(net: &mut Net, s: &Row, r: &Matrix) -> Result<Row, AllocError>
    requires set { IsRow net.old (length r.now) s.now }
    requires relation { IsMatrix net.old (length r.now) r.now }
    requires room { nodes_of net.old + 2 * length r.now * length r.now ≤ 2 ^ 28 }
    ensures grows { Grows (2 * length r.now * length r.now) net.old net.new }
    ensures row { IfOk result (λ row. IsRow net.new (length r.now) row) }
    ensures value { IfOk result (λ row. Always net.new (λ value. (y : ℕ) → y < length r.now →
        member value row y ≡ some_below (length r.now) (λ x. member value s.now x && edge value r.now x y))) }
{
    let (set, rows) = (s.nodes(), r.rows());
    let mut nodes = Vec::with_capacity(net.allocator(), rows.len())?;
    for y in 0..rows.len() {
        nodes.push(image_node(net, set, rows, y)?)?;
    }
    Ok(Row { nodes })
}

// Whether an edge leads from a member to one object.
fn image_node(net: &mut Net, set: &[Node], rows: &[Row], y: usize) -> Result<Node, AllocError>
    requires set { IsRow net.old (length rows.now) set.now }
    requires relation { IsMatrix net.old (length rows.now) rows.now }
    requires column { y < length rows.now }
    requires room { nodes_of net.old + 2 * length rows.now ≤ 2 ^ 28 }
    ensures grows { Grows (2 * length rows.now) net.old net.new }
    ensures node { IfOk result (λ n. IsNode net.new n) }
    ensures value { IfOk result (λ n. Always net.new (λ value.
        value n ≡ some_below (length rows.now) (λ x. member value set.now x && edge value rows.now x y))) }
{
    let mut found = net.constant(false);
    for x in 0..rows.len() {
        let here = net.and(set[x], entry(rows, x, y))?;
        found = net.or(found, here)?;
    }
    Ok(found)
}

// The same, as a test.
fn join_rows(net: &mut Net, r: &Matrix, s: &Matrix) -> Result<Matrix, AllocError>
    requires first { IsMatrix net.old (length s.now) r.now }
    requires second { IsMatrix net.old (length s.now) s.now }
    requires room { nodes_of net.old + 2 * length s.now * length s.now * length s.now ≤ 2 ^ 28 }
    ensures grows { Grows (2 * length s.now * length s.now * length s.now) net.old net.new }
    ensures matrix { IfOk result (λ matrix. IsMatrix net.new (length s.now) matrix) }
    ensures value { IfOk result (λ matrix. Always net.new (λ value. (x z : ℕ) → x < length s.now → z < length s.now →
        edge value matrix x z ≡ some_below (length s.now) (λ y. edge value r.now x y && edge value s.now y z))) }
{
    let first = r.rows();
    let mut rows = Vec::with_capacity(net.allocator(), first.len())?;
    for x in 0..first.len() {
        rows.push(image_row(net, &first[x], s)?)?;
    }
    Ok(Matrix { rows })
}
