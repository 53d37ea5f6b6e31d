ghost use Rattle.std.specs.Prelude.{◌≡◌, ◌≤◌, ◌<◌, ◌+◌, ◌*◌, ◌^◌, ◌↔◌, ◌&&◌, ◌||◌, ℕ, IsTrue, IfOk, length};
ghost use Rattle.gate_net.specs.Net.{Always, Grows, nodes_of};
ghost use Rattle.relation_gates.specs.Relations.{IsMatrix, IsRow, IsPath, edge, member};

use crate::{Matrix, Row};
use gate_net::Net;
use std::alloc::{AllocError, Global};

/// The pairs that a nonempty list of edges joins, of any length (Warshall). Over n objects it adds at most 2 * n * n *
/// n nodes.
///
/// Answers `AllocError` where memory is refused. Earlier nodes keep their values, also then.
pub fn closure(net: &mut Net, r: &Matrix) -> Result<Matrix, AllocError>
    requires relation { IsMatrix net.old (length r.now) r.now }
    requires room { nodes_of net.old + 2 * length r.now * length r.now * length r.now ≤ 2 ^ 28 }
    ensures grows { Grows (2 * length r.now * length r.now * length r.now) net.old net.new }
    ensures matrix { IfOk result (λ matrix. IsMatrix net.new (length r.now) matrix) }
    ensures value { IfOk result (λ matrix. Always net.new (λ value. (x z : ℕ) → x < length r.now → z < length r.now →
        IsTrue (edge value matrix x z) ↔ IsPath (edge value r.now) (length r.now) x z)) }
{
    let mut paths = copied(net.allocator(), r)?;
    for k in 0..r.rows().len() {
        paths = by_way_of(net, &paths, k)?;
    }
    Ok(paths)
}

// The same relation in memory of its own.
fn copied(alloc: Global, r: &Matrix) -> Result<Matrix, AllocError>
    ensures { IfOk result (λ matrix. matrix ≡ r.now) }
{
    let mut rows = Vec::with_capacity(alloc, r.rows().len())?;
    for row in r.rows() {
        let nodes = row.nodes().to_vec(alloc)?;
        rows.push(Row { nodes })?;
    }
    Ok(Matrix { rows })
}

// The pairs that were joined, and those that are by way of one more object.
fn by_way_of(net: &mut Net, paths: &Matrix, k: usize) -> Result<Matrix, AllocError>
    requires relation { IsMatrix net.old (length paths.now) paths.now }
    requires object { k < length paths.now }
    requires room { nodes_of net.old + 2 * length paths.now * length paths.now ≤ 2 ^ 28 }
    ensures grows { Grows (2 * length paths.now * length paths.now) net.old net.new }
    ensures matrix { IfOk result (λ matrix. IsMatrix net.new (length paths.now) matrix) }
    ensures value { IfOk result
        (λ matrix. Always net.new (λ value. (x z : ℕ) → x < length paths.now → z < length paths.now →
        edge value matrix x z ≡ (edge value paths.now x z || (edge value paths.now x k && edge value paths.now k z)))) }
{
    let from = paths.rows();
    let mut rows = Vec::with_capacity(net.allocator(), from.len())?;
    for x in 0..from.len() {
        rows.push(row_by_way_of(net, &from[x], &from[k], k)?)?;
    }
    Ok(Matrix { rows })
}

// The same for the pairs from one object: `via` are those that object k is joined to.
fn row_by_way_of(net: &mut Net, row: &Row, via: &Row, k: usize) -> Result<Row, AllocError>
    requires row { IsRow net.old (length row.now) row.now }
    requires via { IsRow net.old (length row.now) via.now }
    requires object { k < length row.now }
    requires room { nodes_of net.old + 2 * length row.now ≤ 2 ^ 28 }
    ensures grows { Grows (2 * length row.now) net.old net.new }
    ensures row { IfOk result (λ joined. IsRow net.new (length row.now) joined) }
    ensures value { IfOk result (λ joined. Always net.new (λ value. (z : ℕ) → z < length row.now →
        member value joined z ≡ (member value row.now z || (member value row.now k && member value via.now z)))) }
{
    let (old, on) = (row.nodes(), via.nodes());
    let mut nodes = Vec::with_capacity(net.allocator(), old.len())?;
    for z in 0..old.len() {
        let through = net.and(old[k], on[z])?;
        nodes.push(net.or(old[z], through)?)?;
    }
    Ok(Row { nodes })
}
