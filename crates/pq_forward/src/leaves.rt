ghost use Rattle.std.specs.Prelude.{◌≡◌, [], ◌∷◌, Some, slice_get, IfOk};
ghost use Rattle.pq_store.specs.Tree.Tree.{Tip};
ghost use Rattle.pq_store.specs.Store.{Keeps};

use pq_fields::Writes;
use pq_rewrite::WriteSet;
use pq_store::{NodeId, Store};
use std::alloc::AllocError;

/// The leaf that gives the packet written.
pub(crate) fn single(store: &mut Store<WriteSet>, writes: Writes) -> Result<NodeId, AllocError>
    ensures leaf { IfOk result (λ id. slice_get store.new id ≡ Some (Tip (writes ∷ []))) }
    ensures keeps { Keeps store.old store.new }
{
    let list = vec![in store.allocator(); writes]?;
    let id = store.leaf(WriteSet::of(list))?;
    Ok(id)
}

/// The leaf that gives nothing.
pub(crate) fn nothing(store: &mut Store<WriteSet>) -> Result<NodeId, AllocError>
    ensures leaf { IfOk result (λ id. slice_get store.new id ≡ Some (Tip [])) }
    ensures keeps { Keeps store.old store.new }
{
    let id = store.leaf(WriteSet::of(Vec::new(store.allocator())))?;
    Ok(id)
}
