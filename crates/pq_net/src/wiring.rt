ghost use Rattle.std.specs.Prelude.{ℕ, ◌≡◌, map, IfOk, OnOk, if◌then◌else◌};
ghost use Rattle.std.specs.HashMap.{get};
ghost use Rattle.pq_model.specs.Lawful.{Ascends};
ghost use Rattle.pq_model.specs.Topology.{is_edge, is_end, is_port, peer, peer_in};
ghost use Rattle.pq_net.specs.Wired.{same_end};

use pq_topo::{Link, Switch, Topology};
use std::alloc::{AllocError, Global};
use std::collections::HashMap;
use std::marker::Model;

/// The switches of a network and the links between them, with the other end of each linked port at hand.
#[derive(Drop)]
pub(crate) struct Wiring {
    topology: Topology,
    peers: HashMap<(u64, u32), (u64, u32)>,
}

impl Model for Wiring {
    ghost use Rattle.pq_model.specs.Topology.{Topology as TopologyValue};

    ghost Value = { TopologyValue };

    ghost use Rattle.pq_net.specs.Wired.{IsWired};

    ghost view = { λ w. w.topology };

    ghost invariant = { λ w. IsWired w };
}

impl Wiring {
    /// The wiring of a topology.
    pub(crate) fn of(alloc: Global, topology: Topology) -> Result<Wiring, AllocError>
        ensures { IfOk result (λ wiring. wiring ≡ topology) }
    {
        let peers = peers_of(alloc, topology.links())?;
        Ok(Wiring { topology, peers })
    }

    /// The switches, ascending by their datapath numbers.
    pub(crate) fn switches(&self) -> &[Switch]
        ensures switches { result.now ≡ self.now.switches }
        ensures ascending { Ascends (map (λ s. s.datapath) self.now.switches) }
    {
        self.topology.switches()
    }

    /// The other end of the link that the port is in; `None` exactly where it is in no link.
    pub(crate) fn peer(&self, datapath: u64, port: u32) -> Option<(u64, u32)>
        ensures { result ≡ peer self.now datapath port }
    {
        self.peers.get(&(datapath, port)).copied()
    }

    /// Whether this is a port of the topology that is in no link.
    pub(crate) fn is_edge(&self, datapath: u64, port: u32) -> bool
        ensures { result ≡ is_edge self.now datapath port }
    {
        is_port(&self.topology, datapath, port) && self.peer(datapath, port).is_none()
    }
}

// Whether this is a port of the topology.
fn is_port(topology: &Topology, datapath: u64, port: u32) -> bool
    ensures { result ≡ is_port topology.now datapath port }
{
    topology.ports_of(datapath).binary_search(&port).is_ok()
}

// The other end of each end of a link.
fn peers_of(alloc: Global, links: &[Link]) -> Result<HashMap<(u64, u32), (u64, u32)>, AllocError>
    ensures { IfOk result (λ peers. (e : ℕ × ℕ) → get same_end peers e ≡ peer_in links.now e.0 e.1) }
{
    let mut peers = HashMap::new(alloc);
    let mut index = links.len();
    while index > 0 {
        index -= 1;
        put_both(links[index], &mut peers)?;
    }
    Ok(peers)
}

// Puts both ends of a link, before what was put for other links.
fn put_both(link: Link, peers: &mut HashMap<(u64, u32), (u64, u32)>) -> Result<(), AllocError>
    ensures { OnOk result ((e : ℕ × ℕ) → get same_end peers.new e
        ≡ (if is_end link.first e.0 e.1 then Some link.second
        else if is_end link.second e.0 e.1 then Some link.first
        else get same_end peers.old e)) }
{
    peers.insert(link.second, link.first)?;
    peers.insert(link.first, link.second)?;
    Ok(())
}
