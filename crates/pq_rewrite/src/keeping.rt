ghost use Rattle.std.specs.Prelude.{◌≡◌, ◌<◌, length, IfOk};
ghost use Rattle.pq_store.specs.Store.{Keeps};
ghost use Rattle.pq_rewrite.specs.Calls.{FitsAloneAt, KeepsWhereAt};

use crate::write_set::WriteSet;
use pq_apply::ite;
use pq_fields::Writes;
use pq_store::{NodeId, Store};
use std::alloc::AllocError;

/// The diagram that gives each packet of which the condition holds, and nothing of others.
///
/// There is room for the numbers that the condition tests. The result tests no others.
pub fn keep(
    tests: &Store<bool>,
    cond: NodeId,
    store: &mut Store<WriteSet>,
) -> Result<NodeId, AllocError>
    requires cond { cond < length tests.now }
    requires fits { FitsAloneAt tests.now cond }
    ensures keeps_where { IfOk result (λ id. KeepsWhereAt tests.now cond store.new id) }
    ensures keeps { Keeps store.old store.new }
{
    let alloc = store.allocator();
    let unchanged = vec![in alloc; Writes::none()]?;
    let yes = store.leaf(WriteSet::of(unchanged))?;
    let no = store.leaf(WriteSet::of(Vec::new(alloc)))?;
    let id = ite(tests, cond, store, yes, no)?;
    Ok(id)
}
