ghost use Rattle.std.specs.Prelude.{IfErr, IfOk};
ghost use Rattle.pq_install.specs.Damage.{IsReadTopology, TopologyFails, topology_bytes};
ghost use Rattle.pq_install.specs.Front.{IsAtFront};
ghost use Rattle.pq_install.specs.Units.{Tells};

use crate::fault::Fault;
use crate::read::links::links_at;
use crate::read::switches::switches_at;
use pq_topo::Topology;
use std::alloc::Global;

/// The switches and the links at the front.
pub fn topology_at(alloc: Global, bytes: &[u8]) -> Result<(Topology, &[u8]), Fault>
    ensures ok { IfOk result (λ r. IsAtFront IsReadTopology topology_bytes bytes.now r.0 r.1.now) }
    ensures err { IfErr result (Tells (TopologyFails bytes.now)) }
{
    let (switches, rest) = switches_at(alloc, bytes)?;
    let unlinked = Topology::made(switches, Vec::new(alloc));
    let (links, rest) = links_at(alloc, &unlinked, rest)?;
    Ok((unlinked.with_links(links), rest))
}
