//! The union of two diagrams, either of which may give nothing.
ghost use Rattle.std.specs.Prelude.{◌≡◌, ◌≤◌, ◌+◌, List, [], ◌++◌, IfOk};
ghost use Rattle.pq_model.specs.Topology.{Topology};
ghost use Rattle.pq_policy.specs.Policy.{PolicyTree};
ghost use Rattle.pq_store.specs.Store.{Keeps};
ghost use Rattle.pq_sum.specs.Sum.{GivesNone, MayJoin, UnitesParts};

use pq_io::Steps;
use pq_rewrite::{WriteSet, equal_rewritings_are_one, union};
use pq_store::{NodeId, Store};
use std::alloc::AllocError;
use std::sync::ledger::Ledger;

/// The diagram of what gives nothing.
pub(crate) fn nothing(store: &mut Store<WriteSet>) -> Result<NodeId, AllocError>
    ensures none { IfOk result (GivesNone store.new) }
    ensures keeps { Keeps store.old store.new }
{
    let id = store.leaf(WriteSet::of(Vec::new(store.allocator())))?;
    Ok(id)
}

/// The union of two diagrams. It takes a step, and none where the second gives nothing.
pub(crate) fn joined<L: Ledger>(
    store: &mut Store<WriteSet>,
    none: NodeId,
    front: NodeId,
    back: NodeId,
    steps: &mut Steps<L>,
) -> Result<NodeId, AllocError>
    requires none { GivesNone store.old none }
    requires halves { MayJoin store.old front back }
    ensures unites { (T : Topology) (ps qs : List PolicyTree) → UnitesParts T store.old ps front → UnitesParts T store.old qs back
        → IfOk result (UnitesParts T store.new (ps ++ qs)) }
    ensures keeps { Keeps store.old store.new }
    ensures step { steps.new ≤ steps.old + 1 }
    ensures no_step { (T : Topology) → UnitesParts T store.old [] back → steps.new ≡ steps.old }
{
    equal_rewritings_are_one(store, none);
    if back == none {
        return Ok(front);
    }
    let id = union(store, front, back, steps)?;
    Ok(id)
}
