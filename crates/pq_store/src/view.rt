use crate::node_id::NodeId;
use crate::test::Test;

/// What is at an id: a leaf, or a test with its yes side and its no side.
#[derive(Debug, Drop)]
pub enum View<'a, L> {
    Leaf(&'a L),
    Node(Test, NodeId, NodeId),
}
