//! What the ports of a switch are: in a link or not.
ghost use Rattle.std.specs.Prelude.{◌≡◌, All, IfOk};
ghost use Rattle.pq_fields.specs.declared.field.Field.TheVariants.{Port};
ghost use Rattle.pq_model.specs.Topology.{ports_of};
ghost use Rattle.pq_store.specs.Room.{HasRoom, IsAmong};
ghost use Rattle.pq_store.specs.Store.{HasAt};
ghost use Rattle.pq_join.specs.Ports.{IsPortTree, own_kind};

use pq_fields::Field;
use pq_store::{Leaf, NodeId, Store, Test};
use pq_topo::Topology;
use std::alloc::{AllocError, Global};

/// What a port number is at a switch.
#[derive(Clone, Copy, Debug, PartialEq, Eq, Hash)]
pub(crate) enum PortKind {
    /// The switch has no such port.
    Missing,
    /// A port in no link.
    Edge,
    /// A port in a link.
    Linked,
}

impl Leaf for PortKind {
    ghost use Rattle.pq_join.specs.Exact.{same_port_kind};

    ghost exact = { same_port_kind };
}

/// The diagram that tells of each packet what its port is at the switch. Each port is looked up once.
pub(crate) fn port_kinds(
    alloc: Global,
    topology: &Topology,
    datapath: u64,
) -> Result<(Store<PortKind>, NodeId), AllocError>
    requires fits { HasRoom (λ ns. All (λ p. IsAmong p (ns Port)) (ports_of topology.now datapath)) }
    ensures { IfOk result (λ r. HasAt (IsPortTree topology.now datapath) r.0 r.1) }
{
    let mut kinds = Store::new(alloc);
    let mut id = kinds.leaf(PortKind::Missing)?;
    for port in topology.ports_of(datapath).iter().rev() {
        let kind = kinds.leaf(own_kind(topology, datapath, *port))?;
        id = kinds.node(Test::Equal(Field::Port, u64::from(*port)), kind, id)?;
    }
    Ok((kinds, id))
}

/// What a port of the switch is.
fn own_kind(topology: &Topology, datapath: u64, port: u32) -> PortKind
    ensures { result ≡ own_kind topology.now datapath port }
{
    match topology.peer(datapath, port) {
        Some(_) => PortKind::Linked,
        None => PortKind::Edge,
    }
}
