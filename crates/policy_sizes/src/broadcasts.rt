//! Broadcast packets at a switch with many ports.
ghost use Rattle.std.specs.Prelude.{◌≡◌, ◌≤◌, IfOk, true};
ghost use Rattle.pq_term.specs.Names.{is_name};
ghost use Rattle.pq_policy.specs.Policy.{Spread, leaf, policy_tree};
ghost use Rattle.policy_sizes.specs.Broadcasts.{broadcast, first_ports, one_switch, to_all};

use pq_fields::{Field, Pred};
use pq_policy::Policy;
use pq_term::Name;
use pq_topo::{Switch, Topology};
use std::alloc::{AllocError, Global};

/// Switch 1 with this many ports, from 1 on.
pub fn one_switch(alloc: Global, count: u32) -> Result<Topology, AllocError>
    requires some { 1 ≤ count }
    requires few { count ≤ 4096 }
    ensures { IfOk result (λ topology. topology ≡ one_switch count) }
{
    let ports = first_ports(alloc, count)?;
    let switch = Switch {
        name: name(b"s1"),
        datapath: 1,
        ports,
        limit: 16_384,
    };
    let switches = vec![in alloc; switch]?;
    Ok(Topology::made(switches, Vec::new(alloc)))
}

fn name(bytes: &[u8]) -> Name
    requires { is_name bytes.now ≡ true }
    ensures { result ≡ bytes.now }
{
    match Name::of(bytes) {
        Some(name) => name,
        None => unreachable!(),
    }
}

/// The ports from 1 on, this many.
fn first_ports(alloc: Global, count: u32) -> Result<Vec<u32>, AllocError>
    requires { count ≤ 4096 }
    ensures { IfOk result (λ ports. ports.items ≡ first_ports count) }
{
    let mut ports = Vec::new(alloc);
    for place in 0..count {
        ports.push(place + 1)?;
    }
    Ok(ports)
}

/// Broadcast packets go to all other ports.
pub fn broadcast(alloc: Global) -> Result<Policy, AllocError>
    ensures { IfOk result (λ policy. policy_tree policy ≡ broadcast) }
{
    let operands = vec![in alloc; to_all(), flood()]?;
    Ok(Policy::Seq(operands))
}

/// The packets to the broadcast address.
fn to_all() -> Policy
    ensures { policy_tree result ≡ to_all }
{
    Policy::Filter(Pred::Equal(Field::EthDst, 0xffff_ffff_ffff))
}

/// Packets go to all ports but their own.
fn flood() -> Policy
    ensures { policy_tree result ≡ leaf Spread }
{
    Policy::Flood
}
