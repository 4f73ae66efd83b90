ghost use Rattle.std.specs.Prelude.{◌≡◌, ◌++◌, ◌∷◌, [], ◌<◌, ◌≤◌, ◌↔◌, length, ◌≢◌, All, IfErr, IfOk, IsTrue, MatchOption, map};
ghost use Rattle.std.specs.List.{flat_map};
ghost use Rattle.pq_model.specs.Lawful.{Ascends};
ghost use Rattle.pq_model.specs.MatchFields.{IsPortNumber};
ghost use Rattle.pq_model.specs.Install.{port_count, switch_bytes};
ghost use Rattle.pq_install.specs.Following.{AtLast};
ghost use Rattle.pq_install.specs.Front.{IsAtFront, NoneAtFront};
ghost use Rattle.pq_install.specs.Switches.{ArePorts, AreReadSwitches, IsReadSwitch, are_ports_above, read_name};
ghost use Rattle.pq_install.specs.Units.{CountedFails, IsSection, ListFails, Tells, UnitFails};

use crate::fault::Fault;
use crate::read::front::{count_at, counted_u32s_at, u64_at};
use pq_model::LAST_PORT;
use pq_term::Name;
use pq_topo::Switch;
use std::alloc::{AllocError, Global};

/// The most ports that a network has.
const MOST_PORTS: usize = 4096;

// The name of a switch that is read: `n` and its datapath number.
fn read_name(alloc: Global, datapath: u64) -> Result<Name, AllocError>
    ensures { IfOk result (λ name. name ≡ read_name datapath) }
{
    let text = format!(in alloc; "n{datapath}")?;
    match Name::of(text.as_bytes()) {
        Some(name) => Ok(name),
        None => unreachable!(),
    }
}

// Whether ports ascend, from 1 to the greatest port number.
fn ascend(ports: &[u32]) -> bool
    ensures { result ≡ are_ports_above 0 ports.now }
{
    let mut last = 0;
    for port in ports {
        if *port <= last {
            return false;
        }
        if *port > LAST_PORT {
            return false;
        }
        last = *port;
    }
    true
}

// Whether these may be the ports of a switch.
fn are_ports(ports: &[u32]) -> bool
    ensures { IsTrue result ↔ ArePorts ports.now }
{
    if ports.is_empty() {
        return false;
    }
    if ports.len() > MOST_PORTS {
        return false;
    }
    ascend(ports)
}

// The switch at the front, and the bytes after it.
fn switch_at(alloc: Global, bytes: &[u8]) -> Result<Option<(Switch, &[u8])>, AllocError>
    ensures { IfOk result (λ found. MatchOption found
        (NoneAtFront IsReadSwitch switch_bytes bytes.now)
        (λ r. IsAtFront IsReadSwitch switch_bytes bytes.now r.0 r.1.now)) }
{
    let Some((datapath, rest)) = u64_at(bytes) else {
        return Ok(None);
    };
    let Some((ports, rest)) = counted_u32s_at(alloc, rest)? else {
        return Ok(None);
    };
    if !are_ports(&ports) {
        return Ok(None);
    }
    let name = read_name(alloc, datapath)?;
    let switch = Switch {
        name,
        datapath,
        ports,
        limit: 0,
    };
    Ok(Some((switch, rest)))
}

// Whether the last switch, where there is one, is below another.
fn comes_after(before: &[Switch], datapath: u64) -> bool
    ensures { IsTrue result ↔ AtLast (λ s. s.datapath < datapath) before.now }
{
    match before.last() {
        Some(last) => last.datapath < datapath,
        None => true,
    }
}

// The count of all ports of switches that have at most 4,096.
fn port_count(switches: &[Switch]) -> usize
    requires { port_count switches.now ≤ 4096 }
    ensures { result ≡ port_count switches.now }
{
    let mut count = 0;
    for switch in switches {
        count += switch.ports.len();
    }
    count
}

// Whether the switch may follow those before it.
fn may_follow(before: &[Switch], switch: &Switch) -> bool
    requires before { AreReadSwitches before.now }
    requires switch { IsReadSwitch switch.now }
    ensures { IsTrue result ↔ AreReadSwitches (before.now ++ switch.now ∷ []) }
{
    if !comes_after(before, switch.datapath) {
        return false;
    }
    port_count(before) + switch.ports.len() <= MOST_PORTS
}

// The switch at the front that may follow those before it.
fn next_switch<'a>(
    alloc: Global,
    before: &[Switch],
    bytes: &'a [u8],
) -> Result<(Switch, &'a [u8]), Fault>
    requires { AreReadSwitches before.now }
    ensures ok { IfOk result (λ r. IsAtFront (λ s. AreReadSwitches (before.now ++ s ∷ [])) switch_bytes bytes.now r.0 r.1.now) }
    ensures err { IfErr result (Tells (UnitFails (λ s. AreReadSwitches (before.now ++ s ∷ [])) switch_bytes bytes.now)) }
{
    let Some((switch, rest)) = switch_at(alloc, bytes)? else {
        return Err(Fault::Damaged { left: bytes.len() });
    };
    if !may_follow(before, &switch) {
        return Err(Fault::Damaged { left: bytes.len() });
    }
    Ok((switch, rest))
}

// This many switches, each of which may follow those before it.
fn switch_list(alloc: Global, count: u16, bytes: &[u8]) -> Result<(Vec<Switch>, &[u8]), Fault>
    ensures length { IfOk result (λ r. length r.0.items ≡ count) }
    ensures ok { IfOk result (λ r. IsAtFront AreReadSwitches (flat_map switch_bytes) bytes.now r.0.items r.1.now) }
    ensures err { IfErr result (Tells (ListFails AreReadSwitches switch_bytes count bytes.now)) }
{
    let mut switches = Vec::new(alloc);
    let mut rest = bytes;
    for _ in 0..count {
        let (switch, after) = next_switch(alloc, &switches, rest)?;
        switches.push(switch)?;
        rest = after;
    }
    Ok((switches, rest))
}

/// The switches at the front: at most 256, after their count.
pub fn switches_at(alloc: Global, bytes: &[u8]) -> Result<(Vec<Switch>, &[u8]), Fault>
    ensures ok { IfOk result (λ r. IsSection 256 AreReadSwitches switch_bytes bytes.now r.0.items r.1.now) }
    ensures err { IfErr result (Tells (CountedFails 256 AreReadSwitches switch_bytes bytes.now)) }
{
    let (count, rest) = count_at(256, bytes)?;
    switch_list(alloc, count, rest)
}
