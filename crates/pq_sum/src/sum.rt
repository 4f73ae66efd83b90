//! A sum of parts: the union of their diagrams, which is kept while parts come and go.
ghost use Rattle.std.specs.Prelude.{◌≡◌, IfOk, OnOk};
ghost use Rattle.pq_store.specs.Compaction.{IsCompaction};
ghost use Rattle.pq_store.specs.Store.{Keeps};
ghost use Rattle.pq_sum.specs.Cells.{MayOpen};
ghost use Rattle.pq_sum.specs.Calls.{
  CountsPutAt,
  CountsRemovalAt,
  HasPartAt,
  IsOpenedAt,
  IsPartAt,
  IsPutAt,
  IsRemovedAt,
  IsSameSum,
  IsSum,
  IsSumIn,
  IsTotal,
  MayPutAt,
  MayRemoveAt,
};

use crate::cells::leaf_at;
use crate::changes::{opened, put, remove};
use crate::slots::{first_slots, rename, slot_for};
use pq_io::Steps;
use pq_rewrite::WriteSet;
use pq_store::{NodeId, Store};
use std::alloc::AllocError;
use std::marker::Model;
use std::sync::ledger::Ledger;

/// The unions of the diagrams of at most 1,024 parts, each of which has a place.
///
/// The places keep the order that the caller gives; the slots in which the parts are in the tree of unions are an order of the
/// sum's own.
#[derive(Drop)]
pub struct Sum {
    cells: Vec<NodeId>,
    slots: Vec<usize>,
}

impl Model for Sum {
    ghost use Rattle.pq_sum.specs.Places.{Sum as SumValue};

    ghost Value = { SumValue };

    ghost view = { λ s. record { cells = s.cells.items; slots = s.slots.items } };
}

impl Sum {
    /// The sum of these parts, in their order.
    pub fn open<L: Ledger>(
        store: &mut Store<WriteSet>,
        parts: &[NodeId],
        steps: &mut Steps<L>,
    ) -> Result<Sum, AllocError>
        requires { MayOpen store.old parts.now }
        ensures sum { IfOk result (IsOpenedAt store.old parts.now store.new) }
        ensures keeps { Keeps store.old store.new }
    {
        let cells = opened(store, parts, steps)?;
        let slots = first_slots(store.allocator(), parts.len())?;
        Ok(Sum { cells, slots })
    }

    /// The diagram of the part of a place.
    pub fn part(&self, place: usize) -> NodeId
        requires { HasPartAt self.now place }
        ensures { IsPartAt self.now place result }
    {
        leaf_at(&self.cells, self.slots[place])
    }

    /// The union of all parts.
    pub fn total(&self) -> NodeId
        requires { IsSum self.now }
        ensures { IsTotal self.now result }
    {
        self.cells[0]
    }

    /// Puts a part at a place, instead of that which has it, or after all others.
    ///
    /// After a refusal the sum may be that of neither the old parts nor the new ones: its caller throws it away.
    pub fn put<L: Ledger>(
        &mut self,
        store: &mut Store<WriteSet>,
        place: usize,
        part: NodeId,
        steps: &mut Steps<L>,
    ) -> Result<(), AllocError>
        requires { MayPutAt store.old self.old place part }
        ensures sum { OnOk result (IsPutAt store.old self.old place part store.new self.new) }
        ensures keeps { Keeps store.old store.new }
        ensures steps { CountsPutAt store.old self.old place part steps.old steps.new }
    {
        let slot = slot_for(&mut self.slots, place)?;
        put(store, &mut self.cells, slot, part, steps)?;
        Ok(())
    }

    /// Takes out the part of a place. The others keep their order; the part of the last slot moves into the slot that gets free.
    ///
    /// After a refusal the sum may be that of neither the old parts nor the new ones: its caller throws it away.
    pub fn remove<L: Ledger>(
        &mut self,
        store: &mut Store<WriteSet>,
        place: usize,
        steps: &mut Steps<L>,
    ) -> Result<(), AllocError>
        requires { MayRemoveAt store.old self.old place }
        ensures sum { OnOk result (IsRemovedAt store.old self.old place store.new self.new) }
        ensures keeps { Keeps store.old store.new }
        ensures steps { CountsRemovalAt store.old self.old place steps.old steps.new }
    {
        let slot = self.slots.remove(place);
        let last = self.slots.len();
        remove(store, &mut self.cells, slot, last, steps)?;
        rename(&mut self.slots, last, slot);
        Ok(())
    }

    /// A store of the diagrams of the sum and nothing else, and the sum in it.
    pub fn copied(&self, store: &Store<WriteSet>) -> Result<(Store<WriteSet>, Sum), AllocError>
        requires { IsSumIn store.now self.now }
        ensures same { IfOk result (λ r. IsSameSum store.now self.now r.0 r.1) }
        ensures compact { IfOk result (λ r. IsCompaction store.now self.now.cells r.0 r.1.cells) }
    {
        let (compact, cells) = store.compacted(&self.cells)?;
        let slots = Vec::from_slice(store.allocator(), &self.slots)?;
        Ok((compact, Sum { cells, slots }))
    }
}
