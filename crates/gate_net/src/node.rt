/// A node of a net, named by its place among the net's nodes.
#[derive(Clone, Copy, Debug, PartialEq, Eq)]
pub struct Node {
    pub(crate) place: u32,
}
