ghost use Rattle.std.specs.Prelude.{◌≡◌, ◌≤◌, All, IfOk, IsTrue, MatchOption};
ghost use Rattle.pq_model.specs.Lawful.{Ascends};
ghost use Rattle.pq_model.specs.MatchFields.{IsPortNumber};
ghost use Rattle.pq_model.specs.Topology.{is_edge, is_port, limit_of, peer, ports_of, switch_named};
ghost use Rattle.pq_topo.specs.Named.{IsNamedTopology, IsNoSwitch, IsSwitchAt};
ghost use Rattle.pq_model.specs.declared.reserved.TheConstants.{LAST_PORT};

use crate::link::Link;
use crate::switch::Switch;
use pq_model::LAST_PORT;
use pq_term::Name;
use std::alloc::{AllocError, Global};
use std::marker::Model;

/// The switches of a network, ascending by their datapath numbers, and its links, ascending.
#[derive(Debug, Drop)]
pub struct Topology {
    switches: Vec<Switch>,
    links: Vec<Link>,
}

impl Model for Topology {
    ghost use Rattle.pq_model.specs.Topology.{Topology as TopologyValue};

    ghost Value = { TopologyValue };

    ghost use Rattle.pq_topo.specs.Stored.{stored_topology};
    ghost use Rattle.pq_topo.specs.Named.{IsNamedTopology, IsNoSwitch, IsSwitchAt};

    ghost view = { stored_topology };

    ghost invariant = { λ t. IsNamedTopology (stored_topology t) };
}

impl Topology {
    /// The topology of these switches and links: at most 256 switches by ascending datapath numbers,
    /// with names that differ, limits of at most 16,384 and ascending ports from 1 to 0xffffff00,
    /// at least one each and at most 4,096 in all; and links in ascending order between
    /// ports of the switches, with no port in two.
    pub fn made(switches: Vec<Switch>, links: Vec<Link>) -> Topology
        requires { IsNamedTopology (record { switches = switches.items; links = links.items }) }
        ensures { result ≡ record { switches = switches.items; links = links.items } }
    {
        Topology { switches, links }
    }

    /// The topology with these links in place of its own, under the same condition as `made`.
    pub fn with_links(mut self, links: Vec<Link>) -> Topology
        requires { IsNamedTopology (record { switches = self.switches; links = links.items }) }
        ensures { result ≡ record { switches = self.switches; links = links.items } }
    {
        self.links = links;
        self
    }

    /// The switches, ascending by their datapath numbers.
    pub fn switches(&self) -> &[Switch]
        ensures switches { result.now ≡ self.now.switches }
        ensures lawful { IsNamedTopology self.now }
    {
        &self.switches
    }

    /// The links, ascending.
    pub fn links(&self) -> &[Link]
        ensures links { result.now ≡ self.now.links }
        ensures lawful { IsNamedTopology self.now }
    {
        &self.links
    }

    /// The other end of the link that the port is in; `None` exactly where it is in no link.
    pub fn peer(&self, datapath: u64, port: u32) -> Option<(u64, u32)>
        ensures { result ≡ peer self.now datapath port }
    {
        for link in &self.links {
            if link.first == (datapath, port) {
                return Some(link.second);
            }
            if link.second == (datapath, port) {
                return Some(link.first);
            }
        }
        None
    }

    /// The ports of the switch with this datapath number, ascending; empty where there is no such switch.
    pub fn ports_of(&self, datapath: u64) -> &[u32]
        ensures ports { result.now ≡ ports_of self.now datapath }
        ensures ascending { Ascends result.now }
        ensures numbers { All IsPortNumber result.now }
    {
        match self.position(datapath) {
            Some(index) => &self.switches[index].ports,
            None => &[],
        }
    }

    /// The most entries that a table of the switch with this datapath number holds; 0 where there is no such switch.
    pub fn limit_of(&self, datapath: u64) -> u32
        ensures { result ≡ limit_of self.now datapath }
    {
        match self.position(datapath) {
            Some(index) => self.switches[index].limit,
            None => 0,
        }
    }

    /// Whether this is a port of the topology.
    pub fn is_port(&self, datapath: u64, port: u32) -> bool
        ensures { result ≡ is_port self.now datapath port }
    {
        self.has_port(datapath, u64::from(port))
    }

    /// Whether the switch with this datapath number has a port of this number, which may be beyond all ports.
    pub(crate) fn has_port(&self, datapath: u64, number: u64) -> bool
        ensures port { result ≡ is_port self.now datapath number }
        ensures within { IsTrue result → number ≤ LAST_PORT }
    {
        let ports = self.ports_of(datapath);
        if u64::from(LAST_PORT) < number {
            return false;
        }
        ports.binary_search(&(number as u32)).is_ok()
    }

    /// Whether this is a port of the topology that is in no link.
    pub fn is_edge(&self, datapath: u64, port: u32) -> bool
        ensures { result ≡ is_edge self.now datapath port }
    {
        self.is_port(datapath, port) && self.peer(datapath, port).is_none()
    }

    /// The datapath number of the switch with this name; `None` exactly where no switch has it.
    pub fn switch_named(&self, name: &Name) -> Option<u64>
        ensures { result ≡ switch_named self.now name.now }
    {
        self.datapath_named(name.bytes())
    }

    /// The datapath number of the switch whose name has these bytes; `None` exactly where no switch has it.
    pub(crate) fn datapath_named(&self, name: &[u8]) -> Option<u64>
        ensures { result ≡ switch_named self.now name.now }
    {
        for switch in &self.switches {
            if switch.name.bytes() == name {
                return Some(switch.datapath);
            }
        }
        None
    }

    /// An equal topology; it fails only where there is no memory for it.
    pub fn copy(&self, alloc: Global) -> Result<Topology, AllocError>
        ensures { IfOk result (λ topology. topology ≡ self.now) }
    {
        let mut switches = Vec::new(alloc);
        for switch in &self.switches {
            switches.push(switch.copy(alloc)?)?;
        }
        let links = Vec::from_slice(alloc, &self.links)?;
        Ok(Topology { switches, links })
    }

    // Where the switch with this datapath number is in the list of switches.
    fn position(&self, datapath: u64) -> Option<usize>
        ensures { MatchOption result (IsNoSwitch self.now.switches datapath)
            (IsSwitchAt self.now.switches datapath) }
    {
        self.switches
            .binary_search_by_key(
                &datapath,
                |switch: &Switch| -> u64
                    ensures { result ≡ switch.now.datapath }
                { switch.datapath },
            )
            .ok()
    }
}
