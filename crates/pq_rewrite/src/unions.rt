ghost use Rattle.std.specs.Prelude.{◌≡◌, ◌<◌, ◌+◌, length, IfOk};
ghost use Rattle.pq_store.specs.Store.{Keeps};
ghost use Rattle.pq_apply.specs.Product.{FitTogetherAt};
ghost use Rattle.pq_rewrite.specs.Calls.{IsIdleFreeAt, UnitesAt};
ghost use Rattle.pq_rewrite.specs.Merged.{IsMerged, MergesAt};
ghost use Rattle.pq_rewrite.specs.Rewriting.{IsCanonicalRewriting};

use crate::canonical::equal_rewritings_are_one;
use crate::write_set::WriteSet;
use pq_apply::combine;
use pq_io::Steps;
use pq_store::{NodeId, Store};
use std::alloc::{AllocError, Global};
use std::sync::ledger::Ledger;

/// The diagram that gives on each packet what one or the other of two idle-free diagrams gives. It counts one step.
///
/// There is room for the numbers that both test. The result tests and writes only what they do.
pub fn union<L: Ledger>(
    store: &mut Store<WriteSet>,
    x: NodeId,
    y: NodeId,
    steps: &mut Steps<L>,
) -> Result<NodeId, AllocError>
    requires x { x < length store.old }
    requires y { y < length store.old }
    requires x_idle_free { IsIdleFreeAt store.old x }
    requires y_idle_free { IsIdleFreeAt store.old y }
    requires fit { FitTogetherAt store.old x store.old y }
    ensures unites { IfOk result (λ id. UnitesAt store.old x y store.new id) }
    ensures keeps { Keeps store.old store.new }
    ensures canonical { IfOk result (λ id. IsCanonicalRewriting store.new) }
    ensures step { steps.new ≡ steps.old + 1 }
{
    steps.tick();
    let id = united(store, x, y)?;
    equal_rewritings_are_one(store, id);
    Ok(id)
}

/// The diagram that has on each packet the writes of both, idle-free or not.
pub(crate) fn united(
    store: &mut Store<WriteSet>,
    x: NodeId,
    y: NodeId,
) -> Result<NodeId, AllocError>
    requires x { x < length store.old }
    requires y { y < length store.old }
    requires fit { FitTogetherAt store.old x store.old y }
    ensures merges { IfOk result (λ id. MergesAt store.old x y store.new id) }
    ensures keeps { Keeps store.old store.new }
{
    let alloc = store.allocator();
    let join = |a: &WriteSet, b: &WriteSet| -> Result<WriteSet, AllocError>
        ensures { IfOk result (λ c. IsMerged a.now b.now c) }
    { merged(alloc, a, b) };
    let id = combine(store, x, y, &join)?;
    Ok(id)
}

/// The set of the writes of two sets.
fn merged(alloc: Global, a: &WriteSet, b: &WriteSet) -> Result<WriteSet, AllocError>
    ensures { IfOk result (λ c. IsMerged a.now b.now c) }
{
    let mut list = Vec::from_slice(alloc, a.list())?;
    list.extend_from_slice(b.list())?;
    list.sort()?;
    list.dedup();
    Ok(WriteSet::of(list))
}
