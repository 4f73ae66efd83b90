//! What is seen of packets at a switch: their letters, and what their ports are.
ghost use Rattle.std.specs.Prelude.{◌≡◌, Ok, IfOk};
ghost use Rattle.pq_store.specs.Room.{HasRoom};
ghost use Rattle.pq_store.specs.Store.{HasAt};
ghost use Rattle.pq_join.specs.Sight.{IsSeenWithin, IsSight};

use crate::choices::at_number;
use crate::ports::{PortKind, port_kinds};
use pq_apply::product;
use pq_fields::Field;
use pq_letters::Letters;
use pq_store::{Leaf, NodeId, Store};
use pq_topo::Topology;
use std::alloc::{AllocError, Global};

/// What is seen of a packet at a switch.
#[derive(Clone, Copy, Debug, PartialEq, Eq, Hash)]
pub(crate) struct Seen {
    /// The letter of the packet.
    pub letter: u64,
    /// What its port is.
    pub port: PortKind,
}

impl Leaf for Seen {
    ghost use Rattle.pq_join.specs.Exact.{same_seen};

    ghost exact = { same_seen };
}

/// The diagram that tells what is seen of each packet at the switch.
pub(crate) fn sight(
    alloc: Global,
    topology: &Topology,
    datapath: u64,
    letters: &Letters,
) -> Result<(Store<Seen>, NodeId), AllocError>
    requires fits { HasRoom (IsSeenWithin topology.now letters.now datapath) }
    ensures { IfOk result (λ r. HasAt (IsSight topology.now letters.now datapath) r.0 r.1) }
{
    let (kinds, ports) = port_kinds(alloc, topology, datapath)?;
    let trees = letters.store();
    let letter = at_number(trees, letters.root(), Field::Switch, datapath);
    let mut seen = Store::new(alloc);
    let join = |letter: &u64, port: &PortKind| -> Result<Seen, AllocError>
        ensures { result ≡ Ok (record { letter = letter.now; port = port.now }) }
    {
        Ok(Seen {
            letter: *letter,
            port: *port,
        })
    };
    let id = product(trees, letter, &kinds, ports, &mut seen, &join)?;
    Ok((seen, id))
}
