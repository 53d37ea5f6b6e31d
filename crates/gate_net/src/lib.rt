//! Boolean circuits, and the clauses that stand for one.
//!
//! A net is a growing list of nodes: the two constants, inputs, and gates over earlier nodes. Each node has a value
//! once the inputs have values (`specs/Net`). Nodes are only added, so what is known of earlier ones stays true.
//!
//! Used above: `Net::clauses`, after Tseitin, gives clauses that exactly those assignments satisfy under which the
//! root is true and each other node's variable has that node's value.
//!
//! Read `node`, `gate`, then `net`, `value`, and `encoding`.
#![tactic(auto)]

mod encoding;
mod gate;
mod literal;
mod net;
mod node;
mod value;

pub use net::Net;
pub use node::Node;
