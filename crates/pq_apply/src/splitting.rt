//! Nodes split by a test that is at their root or before it.
ghost use Rattle.std.specs.Prelude.{◌≡◌, ◌<◌, length, Some};
ghost use Rattle.pq_store.specs.Store.{AreDiagrams};
ghost use Rattle.pq_store.specs.Test.{IsLawful};
ghost use Rattle.pq_apply.specs.Split.{HasRootAt, IsEarlier, IsLawfulRoot, LeadsAt, SplitsAt};

use pq_store::{Leaf, NodeId, Store, Test, View};

/// The test at a node, if it is not a leaf.
pub(crate) fn root<L: Leaf>(store: &Store<L>, node: NodeId) -> Option<Test>
    requires { node < length store.now }
    ensures root { HasRootAt store.now node result }
    ensures diagrams { AreDiagrams store.now }
{
    match store.view(node) {
        View::Node(test, _, _) => Some(test),
        View::Leaf(_) => None,
    }
}

/// The first of a test and the test at a root.
pub(crate) fn earlier(first: Test, other: Option<Test>) -> Test
    requires first { IsLawful first }
    requires other { IsLawfulRoot other }
    ensures { IsEarlier first other result }
{
    match other {
        Some(test) if test.precedes(first) => test,
        _ => first,
    }
}

/// What a node says of the packets that pass the test, and of the others.
pub(crate) fn split<L: Leaf>(store: &Store<L>, test: Test, node: NodeId) -> (NodeId, NodeId)
    requires node { node < length store.now }
    requires leads { LeadsAt test store.now node }
    ensures { SplitsAt store.now test node result.0 result.1 }
{
    match store.view(node) {
        View::Node(root, yes, no) if !test.precedes(root) => (yes, no),
        _ => (store.past(test, node), node),
    }
}
