//! The links of a document, as its statements describe them.
ghost use Rattle.std.specs.Prelude.{◌≡◌, [], ◌∷◌, ◌++◌, map, IfOk};
ghost use Rattle.pq_tree.specs.Trees.{trees};
ghost use Rattle.pq_topo.specs.Naming.{IsAnswer, next};
ghost use Rattle.pq_topo.specs.Statements.{switch_at, end_of, link_from, link_of, links_after, ordered};

use crate::fault::{NameFault, NameKind};
use crate::link::Link;
use crate::resolve::tokens::{begins_with, fault, number_in};
use crate::topology::Topology;
use indexmap::IndexSet;
use pq_grammar::Class;
use pq_term::Token;
use pq_tree::{Term, text_in};
use std::alloc::{AllocError, Global};

/// Reads the name of a switch, and gives the switch's datapath number.
fn read_switch(bytes: &[u8], topology: &Topology, name: &Token) -> Result<u64, NameFault>
    ensures { IsAnswer (λ datapath. datapath) result (switch_at bytes.now topology.now.switches name.now) }
{
    match topology.datapath_named(text_in(bytes, name)) {
        Some(datapath) => Ok(datapath),
        None => Err(fault(name, NameKind::UnknownSwitch)),
    }
}

/// Reads an end of a link, which is among no earlier ones, and puts it after them.
#[tactic(auto, using(crate::proofs::Passed::passed, crate::proofs::Passed::followed))]
fn read_end(
    bytes: &[u8],
    topology: &Topology,
    ends: &mut IndexSet<(u64, u32)>,
    name: &Token,
    port: &Token,
) -> Result<(u64, u32), NameFault>
    ensures end { IsAnswer (λ end. end) result (end_of bytes.now topology.now.switches ends.old.keys name.now port.now) }
    ensures kept { IfOk result (λ end. ends.new.keys ≡ ends.old.keys ++ end ∷ []) }
{
    let datapath = read_switch(bytes, topology, name)?;
    let number = number_in(bytes, port);
    if !topology.has_port(datapath, number) {
        return Err(fault(port, NameKind::UnknownPort));
    }
    let end = (datapath, number as u32);
    if ends.contains(&end) {
        return Err(fault(port, NameKind::Doubled));
    }
    match ends.insert(end) {
        Ok(_) => Ok(end),
        Err(_) => Err(NameFault::Memory),
    }
}

/// Reads a link between two ends, each a name and a port.
#[tactic(auto, using(crate::proofs::Passed::passed, crate::proofs::Passed::followed, crate::proofs::LinkSteps::two_more))]
fn read_ends(
    bytes: &[u8],
    topology: &Topology,
    ends: &mut IndexSet<(u64, u32)>,
    name: &Token,
    port: &Token,
    other: &Token,
    peer: &Token,
) -> Result<Link, NameFault>
    ensures link { IsAnswer (λ link. link) result (link_from bytes.now topology.now.switches ends.old.keys name.now port.now other.now peer.now) }
    ensures kept { IfOk result (λ link. ends.new.keys ≡ ends.old.keys ++ link.first ∷ link.second ∷ []) }
{
    let first = read_end(bytes, topology, ends, name, port)?;
    let second = read_end(bytes, topology, ends, other, peer)?;
    Ok(Link { first, second })
}

/// Reads the link of a statement with these parts, with its ends as they are there.
fn read_link(
    bytes: &[u8],
    topology: &Topology,
    ends: &mut IndexSet<(u64, u32)>,
    keyword: &Token,
    parts: &[Term<'_>],
) -> Result<Link, NameFault>
    ensures link { IsAnswer (λ link. link) result (link_of bytes.now topology.now.switches ends.old.keys keyword.now (trees parts.now)) }
    ensures kept { IfOk result (λ link. ends.new.keys ≡ ends.old.keys ++ link.first ∷ link.second ∷ []) }
{
    let [name, port, other, peer, ..] = parts else {
        return Err(fault(keyword, NameKind::BadValue));
    };
    read_ends(
        bytes,
        topology,
        ends,
        &name.head,
        &port.head,
        &other.head,
        &peer.head,
    )
}

/// Reads the links of statements, in text order.
#[tactic(auto, using(crate::proofs::LinkSteps::link_is_read, crate::proofs::LinkSteps::link_is_refused, crate::proofs::LinkSteps::no_link, crate::proofs::LinkSteps::ends_read))]
pub(crate) fn read_links(
    alloc: Global,
    bytes: &[u8],
    topology: &Topology,
    terms: &[Term<'_>],
) -> Result<Vec<Link>, NameFault>
    ensures { IsAnswer (λ links. links.items) result (links_after bytes.now topology.now.switches [] (trees terms.now)) }
{
    let mut ends = IndexSet::new(alloc);
    let mut links = Vec::new(alloc);
    for term in terms {
        if begins_with(bytes, Class::LinkWord, &term.head) {
            match read_link(bytes, topology, &mut ends, &term.head, term.children) {
                Ok(link) => match links.push(link) {
                    Ok(()) => {}
                    Err(_) => return Err(NameFault::Memory),
                },
                Err(fault) => return Err(fault),
            }
        }
    }
    Ok(links)
}

/// The same link, with the smaller end first.
fn ordered(link: &Link) -> Link
    ensures { result ≡ ordered link.now }
{
    if link.second < link.first {
        Link {
            first: link.second,
            second: link.first,
        }
    } else {
        *link
    }
}

/// The links, each with the smaller end first.
pub(crate) fn all_ordered(alloc: Global, links: &[Link]) -> Result<Vec<Link>, AllocError>
    ensures { IfOk result (λ ordered_links. ordered_links.items ≡ map ordered links.now) }
{
    let mut all = Vec::new(alloc);
    for link in links {
        all.push(ordered(link))?;
    }
    Ok(all)
}
