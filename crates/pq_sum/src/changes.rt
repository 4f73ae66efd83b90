//! Changes of the cells of a sum of 1,024 slots.
ghost use Rattle.std.specs.Prelude.{◌≡◌, replicate, IfOk, OnOk};
ghost use Rattle.pq_store.specs.Store.{Keeps};
ghost use Rattle.pq_sum.specs.Cells.{CountsPut, CountsRemoval, IsOpened, IsPut, IsRemoved, MayOpen, MayPut, MayRemove};

use crate::cells::{fill, leaf_at, set};
use crate::joined::nothing;
use pq_io::Steps;
use pq_rewrite::WriteSet;
use pq_store::{NodeId, Store};
use std::alloc::{AllocError, Global};
use std::sync::ledger::Ledger;

/// Cells that all have this diagram: those of a tree of 1,024 slots.
fn all_cells(alloc: Global, none: NodeId) -> Result<Vec<NodeId>, AllocError>
    ensures { IfOk result (λ cells. cells.items ≡ replicate 2047 none) }
{
    let cells = vec![in alloc; none; 2047]?;
    Ok(cells)
}

/// The cells of the sum of these parts.
pub(crate) fn opened<L: Ledger>(
    store: &mut Store<WriteSet>,
    parts: &[NodeId],
    steps: &mut Steps<L>,
) -> Result<Vec<NodeId>, AllocError>
    requires { MayOpen store.old parts.now }
    ensures sum { IfOk result (λ cells. IsOpened store.old parts.now store.new cells.items) }
    ensures keeps { Keeps store.old store.new }
{
    let none = nothing(store)?;
    let mut cells = all_cells(store.allocator(), none)?;
    fill(store, &mut cells, none, parts, steps)?;
    Ok(cells)
}

/// Puts a part into a slot.
pub(crate) fn put<L: Ledger>(
    store: &mut Store<WriteSet>,
    cells: &mut [NodeId],
    slot: usize,
    part: NodeId,
    steps: &mut Steps<L>,
) -> Result<(), AllocError>
    requires { MayPut store.old cells.old slot part }
    ensures sum { OnOk result (IsPut store.old cells.old slot part store.new cells.new) }
    ensures keeps { Keeps store.old store.new }
    ensures steps { CountsPut store.old cells.old slot part steps.old steps.new }
{
    let none = nothing(store)?;
    set(store, cells, none, slot, part, steps)?;
    Ok(())
}

/// Takes the part of a slot out, and puts that of the last slot there.
pub(crate) fn remove<L: Ledger>(
    store: &mut Store<WriteSet>,
    cells: &mut [NodeId],
    slot: usize,
    last: usize,
    steps: &mut Steps<L>,
) -> Result<(), AllocError>
    requires { MayRemove store.old cells.old slot last }
    ensures sum { OnOk result (IsRemoved store.old cells.old slot last store.new cells.new) }
    ensures keeps { Keeps store.old store.new }
    ensures steps { CountsRemoval store.old cells.old slot last steps.old steps.new }
{
    let none = nothing(store)?;
    let moved = leaf_at(cells, last);
    set(store, cells, none, last, none, steps)?;
    if slot == last {
        return Ok(());
    }
    set(store, cells, none, slot, moved, steps)?;
    Ok(())
}
