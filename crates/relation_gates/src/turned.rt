ghost use Rattle.std.specs.Prelude.{◌≡◌, ◌<◌, ℕ, IfOk, length};
ghost use Rattle.std.specs.List.{All};
ghost use Rattle.gate_net.specs.Net.{Always, IsNode};
ghost use Rattle.relation_gates.specs.Relations.{IsMatrix, IsRow, edge, member};

use crate::product::entry;
use crate::{Matrix, Row};
use gate_net::Net;
use std::alloc::AllocError;

/// The pairs of a relation turned round. The net stays as it is.
///
/// Answers `AllocError` where memory is refused.
pub fn converse(net: &mut Net, r: &Matrix) -> Result<Matrix, AllocError>
    requires { IsMatrix net.old (length r.now) r.now }
    ensures grows { net.new ≡ net.old }
    ensures matrix { IfOk result (λ matrix. IsMatrix net.new (length r.now) matrix) }
    ensures value { IfOk result (λ matrix. Always net.new (λ value. (x y : ℕ) → x < length r.now → y < length r.now →
        edge value matrix x y ≡ edge value r.now y x)) }
{
    let columns = r.rows();
    let mut rows = Vec::with_capacity(net.allocator(), columns.len())?;
    for x in 0..columns.len() {
        rows.push(column(net, columns, x)?)?;
    }
    Ok(Matrix { rows })
}

// The objects from which an edge leads to one object.
fn column(net: &Net, rows: &[Row], x: usize) -> Result<Row, AllocError>
    requires relation { IsMatrix net.now (length rows.now) rows.now }
    requires column { x < length rows.now }
    ensures row { IfOk result (λ row. IsRow net.now (length rows.now) row) }
    ensures value { IfOk result (λ row. Always net.now (λ value. (y : ℕ) → y < length rows.now →
        member value row y ≡ edge value rows.now y x)) }
{
    let mut nodes = Vec::with_capacity(net.allocator(), rows.len())?;
    for y in 0..rows.len() {
        nodes.push(entry(rows, y, x))?;
    }
    Ok(Row { nodes })
}
