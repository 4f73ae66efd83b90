//! The diagram of the forwarding policy of a document: the union of its parts.
ghost use Rattle.std.specs.Prelude.{◌≡◌, ◌≤◌, ◌+◌, [], Some, slice_get, IfOk};
ghost use Rattle.pq_store.specs.Tree.Tree.{Tip};
ghost use Rattle.pq_store.specs.Store.{HasAt, Keeps};
ghost use Rattle.pq_meaning.specs.Parts.{AreLawful, FitAsParts, IsUnionOfParts, part_trees, work_of_parts};

use pq_forward::forward;
use pq_io::Steps;
use pq_policy::Policy;
use pq_rewrite::{WriteSet, union};
use pq_store::{NodeId, Store};
use pq_term::Name;
use pq_topo::Topology;
use std::alloc::AllocError;
use std::sync::ledger::Ledger;

/// The diagram of what any of the parts gives; without parts it gives nothing. They are united by halves.
///
/// The parts are lawful, and there is room for the numbers that they and the topology state, and those in prerequisites. The
/// diagram tests and writes no others. It takes the steps of the parts, and one less than there are parts for their union.
/// Conditions are built in `tests`. It recurs as deep as the list halves.
pub fn parts_forward<L: Ledger>(
    tests: &mut Store<bool>,
    store: &mut Store<WriteSet>,
    parts: &[(Name, Policy)],
    topology: &Topology,
    steps: &mut Steps<L>,
) -> Result<NodeId, AllocError>
    requires lawful { AreLawful (part_trees parts.now) }
    requires fit { FitAsParts topology.now (part_trees parts.now) }
    ensures forwards { IfOk result (λ id. HasAt (IsUnionOfParts topology.now (part_trees parts.now)) store.new id) }
    ensures tests { Keeps tests.old tests.new }
    ensures keeps { Keeps store.old store.new }
    ensures steps { steps.new ≤ steps.old + work_of_parts (part_trees parts.now) }
{
    match parts {
        [] => no_parts(store),
        [part] => forward(tests, store, &part.1, topology, steps),
        _ => {
            let (front, back) = parts.split_at(parts.len() / 2);
            let x = parts_forward(tests, store, front, topology, steps)?;
            let y = parts_forward(tests, store, back, topology, steps)?;
            let id = union(store, x, y, steps)?;
            Ok(id)
        }
    }
}

/// The diagram that gives nothing.
fn no_parts(store: &mut Store<WriteSet>) -> Result<NodeId, AllocError>
    ensures leaf { IfOk result (λ id. slice_get store.new id ≡ Some (Tip [])) }
    ensures keeps { Keeps store.old store.new }
{
    let id = store.leaf(WriteSet::of(Vec::new(store.allocator())))?;
    Ok(id)
}
