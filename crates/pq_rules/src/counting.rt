//! How many entries trees give.
ghost use Rattle.std.specs.Prelude.{◌≡◌, ◌<◌, ◌==◌, length, Some, IfOk, OnOk};
ghost use Rattle.indexmap.specs.IndexMap.{get, Updates};
ghost use Rattle.pq_apply.specs.Memo.{Remembers};
ghost use Rattle.pq_rules.specs.Counts.{AreWithin, CountsAt, capped};
ghost use Rattle.pq_rules.specs.Found.{matches_of, trees_with};

use indexmap::IndexMap;
use pq_store::{Leaf, NodeId, Store, View};
use std::alloc::AllocError;

/// The number of entries of these trees together, or 18,446,744,073,709,551,615 where it is greater.
pub(crate) fn count_entries<L: Leaf>(
    store: &Store<L>,
    roots: &[(u16, NodeId)],
) -> Result<u64, AllocError>
    requires { AreWithin store.now roots.now }
    ensures { IfOk result (λ n. n ≡ capped (length (matches_of (trees_with store.now roots.now)))) }
{
    let mut counts = IndexMap::new(store.allocator());
    let mut count: u64 = 0;
    for root in roots {
        let more = count_below(store, root.1, &mut counts)?;
        count = count.saturating_add(more);
    }
    Ok(count)
}

/// The number of leaves on all paths of a tree, counted once for each node. It recurs as deep as a path of the tree.
fn count_below<L: Leaf>(
    store: &Store<L>,
    node: NodeId,
    counts: &mut IndexMap<NodeId, u64>,
) -> Result<u64, AllocError>
    requires node { node < length store.now }
    requires counts { Remembers (λ x y. x == y) (CountsAt store.now) counts.old }
    ensures count { IfOk result (λ n. CountsAt store.now node n) }
    ensures counts { OnOk result (Remembers (λ x y. x == y) (CountsAt store.now) counts.new) }
{
    if let Some(count) = recall(counts, node) {
        return Ok(count);
    }
    match store.view(node) {
        View::Leaf(_) => Ok(1),
        View::Node(_, yes, no) => {
            let passed = count_below(store, yes, counts)?;
            let failed = count_below(store, no, counts)?;
            let count = passed.saturating_add(failed);
            remember(counts, node, count)?;
            Ok(count)
        }
    }
}

/// The number that was noted for a node, if there is one.
pub(crate) fn recall(noted: &IndexMap<NodeId, u64>, node: NodeId) -> Option<u64>
    ensures { result ≡ get (λ x y. x == y) noted.now node }
{
    noted.get(&node).copied()
}

/// Notes the number of a node.
pub(crate) fn remember(
    noted: &mut IndexMap<NodeId, u64>,
    node: NodeId,
    number: u64,
) -> Result<(), AllocError>
    ensures { OnOk result (Updates (λ x y. x == y) noted.old noted.new node (Some number)) }
{
    match noted.insert(node, number) {
        Ok(_) => Ok(()),
        Err(_) => Err(AllocError),
    }
}
