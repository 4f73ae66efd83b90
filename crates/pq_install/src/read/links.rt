ghost use Rattle.std.specs.Prelude.{◌≡◌, ◌++◌, drop, ◌∷◌, [], ◌↔◌, length, IfErr, IfOk, IsTrue, MatchOption};
ghost use Rattle.std.specs.List.{flat_map, list_any};
ghost use Rattle.pq_fields.specs.Packet.{is_before};
ghost use Rattle.pq_model.specs.Install.{IsLawfulLink, end_bytes, end_numbers, ends_of, link_bytes, link_numbers};
ghost use Rattle.pq_install.specs.Following.{AtLast};
ghost use Rattle.pq_install.specs.Front.{IsAtFront, NoneAtFront};
ghost use Rattle.pq_install.specs.Links.{AreReadLinks, HasEnds, IsEnd, same_end, unlinked};
ghost use Rattle.pq_install.specs.Switches.{AreReadSwitches};
ghost use Rattle.pq_install.specs.Units.{CountedFails, IsSection, ListFails, Tells, UnitFails};

use crate::fault::Fault;
use crate::read::front::{count_at, u32_at, u64_at};
use pq_topo::{Link, Topology};
use std::alloc::Global;

// The end of a link at the front: a datapath number and a port.
fn end_at(bytes: &[u8]) -> Option<((u64, u32), &[u8])>
    ensures { MatchOption result (NoneAtFront IsEnd end_bytes bytes.now)
        (λ r. IsAtFront IsEnd end_bytes bytes.now r.0 r.1.now) }
{
    let (datapath, rest) = u64_at(bytes)?;
    let (port, rest) = u32_at(rest)?;
    Some(((datapath, port), rest))
}

/// The bytes of a link.
const LINK_LEN: usize = 24;

// The link at the front, whatever its ends are.
fn link_at(bytes: &[u8]) -> Option<Link>
    ensures { MatchOption result (NoneAtFront HasEnds link_bytes bytes.now)
        (λ l. IsAtFront HasEnds link_bytes bytes.now l (drop 24 bytes.now)) }
{
    let Some((first, rest)) = end_at(bytes) else {
        return None;
    };
    let Some((second, _)) = end_at(rest) else {
        return None;
    };
    Some(Link { first, second })
}

// Whether one end is below another, by their datapath numbers and then by their ports.
fn is_below(a: (u64, u32), b: (u64, u32)) -> bool
    ensures { result ≡ is_before (end_numbers a) (end_numbers b) }
{
    a.0 < b.0 || (a.0 == b.0 && a.1 < b.1)
}

// Whether one link is below another, by their first ends and then by their second.
fn link_is_below(a: &Link, b: &Link) -> bool
    ensures { result ≡ is_before (link_numbers a.now) (link_numbers b.now) }
{
    is_below(a.first, b.first) || (a.first == b.first && is_below(a.second, b.second))
}

// Whether the last link, where there is one, is below another.
fn comes_after(before: &[Link], link: &Link) -> bool
    ensures { IsTrue result ↔ AtLast (λ l. IsTrue (is_before (link_numbers l) (link_numbers link.now))) before.now }
{
    match before.last() {
        Some(last) => link_is_below(last, link),
        None => true,
    }
}

// Whether the end is one of a link.
fn is_linked(links: &[Link], end: (u64, u32)) -> bool
    ensures { result ≡ list_any (λ e. same_end e end) (ends_of links.now) }
{
    for link in links {
        if link.first == end {
            return true;
        }
        if link.second == end {
            return true;
        }
    }
    false
}

// Whether both ends are ports and the first is the smaller.
fn joins_ports(topology: &Topology, link: &Link) -> bool
    ensures { IsTrue result ↔ IsLawfulLink (unlinked topology.now.switches) link.now }
{
    if !topology.is_port(link.first.0, link.first.1) {
        return false;
    }
    if !topology.is_port(link.second.0, link.second.1) {
        return false;
    }
    is_below(link.first, link.second)
}

// Whether the link may follow those before it.
fn may_follow(topology: &Topology, before: &[Link], link: &Link) -> bool
    requires { AreReadLinks topology.now.switches before.now }
    ensures { IsTrue result ↔ AreReadLinks topology.now.switches (before.now ++ link.now ∷ []) }
{
    if !joins_ports(topology, link) {
        return false;
    }
    if !comes_after(before, link) {
        return false;
    }
    if is_linked(before, link.first) {
        return false;
    }
    if is_linked(before, link.second) {
        return false;
    }
    true
}

// The link at the front that may follow those before it.
fn next_link(topology: &Topology, before: &[Link], bytes: &[u8]) -> Result<Link, Fault>
    requires switches { AreReadSwitches topology.now.switches }
    requires links { AreReadLinks topology.now.switches before.now }
    ensures ok { IfOk result (λ l. IsAtFront (λ m. AreReadLinks topology.now.switches (before.now ++ m ∷ [])) link_bytes bytes.now l (drop 24 bytes.now)) }
    ensures err { IfErr result (Tells (UnitFails (λ l. AreReadLinks topology.now.switches (before.now ++ l ∷ [])) link_bytes bytes.now)) }
{
    let Some(link) = link_at(bytes) else {
        return Err(Fault::Damaged { left: bytes.len() });
    };
    if !may_follow(topology, before, &link) {
        return Err(Fault::Damaged { left: bytes.len() });
    }
    Ok(link)
}

// This many links, each of which may follow those before it.
fn link_list<'a>(
    alloc: Global,
    topology: &Topology,
    count: u16,
    bytes: &'a [u8],
) -> Result<(Vec<Link>, &'a [u8]), Fault>
    requires { AreReadSwitches topology.now.switches }
    ensures length { IfOk result (λ r. length r.0.items ≡ count) }
    ensures ok { IfOk result (λ r. IsAtFront (AreReadLinks topology.now.switches) (flat_map link_bytes) bytes.now r.0.items r.1.now) }
    ensures err { IfErr result (Tells (ListFails (AreReadLinks topology.now.switches) link_bytes count bytes.now)) }
{
    let mut links = Vec::new(alloc);
    let mut rest = bytes;
    for _ in 0..count {
        let link = next_link(topology, &links, rest)?;
        links.push(link)?;
        let (_, after) = rest.split_at(LINK_LEN);
        rest = after;
    }
    Ok((links, rest))
}

/// The links at the front between ports of the switches, after their count.
pub fn links_at<'a>(
    alloc: Global,
    topology: &Topology,
    bytes: &'a [u8],
) -> Result<(Vec<Link>, &'a [u8]), Fault>
    requires { AreReadSwitches topology.now.switches }
    ensures ok { IfOk result (λ r. IsSection 65535 (AreReadLinks topology.now.switches) link_bytes bytes.now r.0.items r.1.now) }
    ensures err { IfErr result (Tells (CountedFails 65535 (AreReadLinks topology.now.switches) link_bytes bytes.now)) }
{
    let (count, rest) = count_at(u16::MAX, bytes)?;
    link_list(alloc, topology, count, rest)
}
