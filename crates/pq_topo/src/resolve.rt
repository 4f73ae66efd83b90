//! The network that a document's statements describe.
ghost use Rattle.std.specs.Prelude.{◌≡◌, [], IfOk};
ghost use Rattle.pq_tree.specs.Trees.{trees};
ghost use Rattle.pq_topo.specs.Named.{IsNamedTopology};
ghost use Rattle.pq_topo.specs.Naming.{IsAnswer, next};
ghost use Rattle.pq_topo.specs.Statements.{switches_in_order, links_in_order, topology_of};

mod links;
mod ports;
mod sorting;
mod switches;
mod tokens;

use crate::fault::NameFault;
use crate::link::Link;
use crate::switch::Switch;
use crate::topology::Topology;
use links::{all_ordered, read_links};
use pq_tree::Term;
use sorting::{sort_links, sort_switches};
use std::alloc::Global;
use switches::read_switches;

/// Reads the switches of statements, and gives them by their datapath numbers.
fn switches_in_order(
    alloc: Global,
    bytes: &[u8],
    terms: &[Term<'_>],
) -> Result<Vec<Switch>, NameFault>
    ensures switches { IsAnswer (λ switches. switches.items) result (switches_in_order bytes.now (trees terms.now)) }
    ensures network { IfOk result (λ switches. IsNamedTopology (record { switches = switches.items; links = [] })) }
{
    let mut switches = read_switches(alloc, bytes, terms)?;
    match sort_switches(&mut switches) {
        Ok(()) => Ok(switches),
        Err(_) => Err(NameFault::Memory),
    }
}

/// Reads the links of statements, and gives them in ascending order.
fn links_in_order(
    alloc: Global,
    bytes: &[u8],
    topology: &Topology,
    terms: &[Term<'_>],
) -> Result<Vec<Link>, NameFault>
    ensures links { IsAnswer (λ links. links.items) result (links_in_order bytes.now topology.now.switches (trees terms.now)) }
    ensures network { IsNamedTopology (record { switches = topology.now.switches; links = [] })
        → IfOk result (λ links. IsNamedTopology (record { switches = topology.now.switches; links = links.items })) }
{
    let read = read_links(alloc, bytes, topology, terms)?;
    let mut links = match all_ordered(alloc, &read) {
        Ok(links) => links,
        Err(_) => return Err(NameFault::Memory),
    };
    match sort_links(&mut links) {
        Ok(()) => Ok(links),
        Err(_) => Err(NameFault::Memory),
    }
}

impl Topology {
    /// Reads the switch and link statements among the trees of a document's statements. The error is the first token
    /// in text order, of the statements of switches and then of those of links, that breaks a naming rule, with the
    /// first rule that it breaks; or there is not enough memory. A statement with fewer parts than any sentence gives
    /// it is refused at its keyword, with `BadValue`.
    pub fn resolve(alloc: Global, terms: &[Term<'_>], bytes: &[u8]) -> Result<Topology, NameFault>
        ensures { IsAnswer (λ topology. topology) result (topology_of bytes.now (trees terms.now)) }
    {
        let switches = switches_in_order(alloc, bytes, terms)?;
        let network = Topology::made(switches, Vec::new(alloc));
        let links = links_in_order(alloc, bytes, &network, terms)?;
        Ok(network.with_links(links))
    }
}
