//! The diagram of `flood`: at each switch of the topology, the packet at each port but its own.
ghost use Rattle.std.specs.Prelude.{◌≡◌, All, Some, slice_get, IfOk};
ghost use Rattle.pq_model.specs.Lawful.{Ascends};
ghost use Rattle.pq_model.specs.MatchFields.{IsPortNumber};
ghost use Rattle.pq_store.specs.Tree.Tree.{Tip};
ghost use Rattle.pq_store.specs.Store.{HasAt, Keeps};
ghost use Rattle.pq_forward.specs.Flood.{AreFewPorts, IsFlood, IsSpread, at_others};

use crate::leaves::nothing;
use pq_fields::{Field, Writes};
use pq_rewrite::WriteSet;
use pq_store::{NodeId, Store, Test};
use pq_topo::Topology;
use std::alloc::AllocError;

/// The diagram that gives, of a packet at a switch of the topology, the packet at each port of the switch but its own.
pub(crate) fn flood(store: &mut Store<WriteSet>, topology: &Topology) -> Result<NodeId, AllocError>
    ensures floods { IfOk result (λ id. HasAt (IsFlood topology.now.switches) store.new id) }
    ensures keeps { Keeps store.old store.new }
{
    let mut id = nothing(store)?;
    for switch in topology.switches().iter().rev() {
        let there = spread(store, &switch.ports)?;
        id = store.node(Test::Equal(Field::Switch, switch.datapath), there, id)?;
    }
    Ok(id)
}

/// The diagram that gives the packet at each of the ports but its own.
fn spread(store: &mut Store<WriteSet>, ports: &[u32]) -> Result<NodeId, AllocError>
    requires ascend { Ascends ports.now }
    requires numbers { All IsPortNumber ports.now }
    requires few { AreFewPorts ports.now }
    ensures spreads { IfOk result (λ id. HasAt (IsSpread ports.now) store.new id) }
    ensures keeps { Keeps store.old store.new }
{
    let mut id = at_others(store, ports, 0)?;
    for port in ports.iter().rev() {
        let others = at_others(store, ports, *port)?;
        id = store.node(Test::Equal(Field::Port, u64::from(*port)), others, id)?;
    }
    Ok(id)
}

/// The leaf that gives the packet at each of the ports but this one.
fn at_others(store: &mut Store<WriteSet>, ports: &[u32], own: u32) -> Result<NodeId, AllocError>
    requires ascend { Ascends ports.now }
    ensures leaf { IfOk result (λ id. slice_get store.new id ≡ Some (Tip (at_others own ports.now))) }
    ensures keeps { Keeps store.old store.new }
{
    let mut list = Vec::new(store.allocator());
    for port in ports {
        if *port != own {
            list.push(Writes::none().set(Field::Port, u64::from(*port)))?;
        }
    }
    let id = store.leaf(WriteSet::of(list))?;
    Ok(id)
}
