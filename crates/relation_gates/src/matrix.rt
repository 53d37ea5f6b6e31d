ghost use Rattle.std.specs.Prelude.{◌≡◌};

use gate_net::Node;
use std::marker::Model;

/// A set: the node at an object's place says whether the object is a member. Contracts see it as the list of nodes.
#[derive(Debug, Drop)]
pub struct Row {
    pub nodes: Vec<Node>,
}

impl Model for Row {
    ghost use Rattle.std.specs.Prelude.{List};
    ghost use Rattle.gate_net.specs.declared.node.Node.{Node};

    ghost Value = { List Node };

    ghost view = { λ row. row.nodes.items };
}

impl Row {
    /// The nodes, that of object 0 first.
    pub fn nodes(&self) -> &[Node]
        ensures { result.now ≡ self.now }
    {
        self.nodes.as_slice()
    }
}

/// A relation: the row at an object's place is the set of the objects to which an edge leads. Contracts see it as the
/// list of rows.
#[derive(Debug, Drop)]
pub struct Matrix {
    pub rows: Vec<Row>,
}

impl Model for Matrix {
    ghost use Rattle.std.specs.Prelude.{List};
    ghost use Rattle.gate_net.specs.declared.node.Node.{Node};

    ghost Value = { List (List Node) };

    ghost view = { λ matrix. matrix.rows.items };
}

impl Matrix {
    /// The rows, that of object 0 first.
    pub fn rows(&self) -> &[Row]
        ensures { result.now ≡ self.now }
    {
        self.rows.as_slice()
    }
}
