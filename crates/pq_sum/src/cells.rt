//! The cells of a balanced tree: its root, then those of its first half, then those of its second half.
ghost use Rattle.std.specs.Prelude.{OnOk};
ghost use Rattle.pq_store.specs.Store.{Keeps};
ghost use Rattle.pq_sum.specs.Sum.{AreChanged, AreCounted, GivesNone, IsChanged, IsCounted, IsFilled, IsLeaf, HasLeaf, MayChange, MayChangeHalf, MayFill};

use crate::joined::joined;
use pq_io::Steps;
use pq_rewrite::WriteSet;
use pq_store::{NodeId, Store};
use std::alloc::AllocError;
use std::sync::ledger::Ledger;

/// Puts a leaf into a slot, and makes the unions above it anew.
///
/// Where the parts are at most 2^k, before and after it, it takes at most k steps.
/// It recurs as deep as the tree, which is balanced.
#[cycle(setting)]
pub(crate) fn set<L: Ledger>(
    store: &mut Store<WriteSet>,
    cells: &mut [NodeId],
    none: NodeId,
    slot: usize,
    leaf: NodeId,
    steps: &mut Steps<L>,
) -> Result<(), AllocError>
    requires none { GivesNone store.old none }
    requires change { MayChange store.old cells.old slot leaf }
    ensures changed { OnOk result (IsChanged store.old cells.old slot leaf store.new cells.new) }
    ensures keeps { Keeps store.old store.new }
    ensures steps { IsCounted store.old cells.old slot leaf steps.old steps.new }
{
    if cells.len() == 1 {
        cells[0] = leaf;
        return Ok(());
    }
    let (root, below) = cells.split_at_mut(1);
    let (front, back) = below.split_at_mut(below.len() / 2);
    set_half(store, front, back, none, slot, leaf, steps)?;
    root[0] = joined(store, none, front[0], back[0], steps)?;
    Ok(())
}

/// Puts a leaf into a slot of one of two halves.
#[cycle(setting)]
fn set_half<L: Ledger>(
    store: &mut Store<WriteSet>,
    front: &mut [NodeId],
    back: &mut [NodeId],
    none: NodeId,
    slot: usize,
    leaf: NodeId,
    steps: &mut Steps<L>,
) -> Result<(), AllocError>
    requires none { GivesNone store.old none }
    requires change { MayChangeHalf store.old front.old back.old slot leaf }
    ensures changed { OnOk result (AreChanged store.old front.old back.old slot leaf store.new front.new back.new) }
    ensures keeps { Keeps store.old store.new }
    ensures steps { AreCounted store.old front.old back.old slot leaf steps.old steps.new }
{
    let half = front.len() / 2 + 1;
    if slot < half {
        set(store, front, none, slot, leaf, steps)
    } else {
        set(store, back, none, slot - half, leaf, steps)
    }
}

/// Puts these leaves into the first slots of an empty tree. It recurs as deep as the tree, which is balanced.
pub(crate) fn fill<L: Ledger>(
    store: &mut Store<WriteSet>,
    cells: &mut [NodeId],
    none: NodeId,
    leaves: &[NodeId],
    steps: &mut Steps<L>,
) -> Result<(), AllocError>
    requires none { GivesNone store.old none }
    requires fill { MayFill store.old cells.old leaves.now }
    ensures filled { OnOk result (IsFilled store.old cells.old leaves.now store.new cells.new) }
    ensures keeps { Keeps store.old store.new }
{
    if leaves.is_empty() {
        return Ok(());
    }
    if cells.len() == 1 {
        cells[0] = leaves[0];
        return Ok(());
    }
    let (root, below) = cells.split_at_mut(1);
    let (front, back) = below.split_at_mut(below.len() / 2);
    let (first, behind) = leaves.split_at(leaves.len().min(front.len() / 2 + 1));
    fill(store, front, none, first, steps)?;
    fill(store, back, none, behind, steps)?;
    root[0] = joined(store, none, front[0], back[0], steps)?;
    Ok(())
}

/// The leaf in a slot in which there is a part. It recurs as deep as the tree, which is balanced.
pub(crate) fn leaf_at(cells: &[NodeId], slot: usize) -> NodeId
    requires { HasLeaf cells.now slot }
    ensures { IsLeaf cells.now slot result }
{
    if cells.len() == 1 {
        return cells[0];
    }
    let below = &cells[1..];
    let (front, back) = below.split_at(below.len() / 2);
    let half = front.len() / 2 + 1;
    if slot < half {
        leaf_at(front, slot)
    } else {
        leaf_at(back, slot - half)
    }
}
