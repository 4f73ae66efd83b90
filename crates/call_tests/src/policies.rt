ghost use Rattle.std.specs.Prelude.{◌≡◌, IfOk, true};
ghost use Rattle.pq_term.specs.Names.{is_name};
ghost use Rattle.pq_policy.specs.Policy.{IsLawfulPolicy, policy_tree};

use pq_fields::{Field, Packet};
use pq_policy::*;
use pq_term::Name;
use pq_topo::{Switch, Topology};
use std::alloc::{AllocError, Global};
use std::test::Fail;

/// The address 02:00:00:00:00:0a.
const ADDRESS: u64 = 0x0200_0000_000a;

fn name(bytes: &[u8]) -> Name
    requires { is_name bytes.now ≡ true }
    ensures { result ≡ bytes.now }
{
    match Name::of(bytes) {
        Some(name) => name,
        None => unreachable!(),
    }
}

// Switch 1 with ports 1, 2 and 3.
fn topology(alloc: Global) -> Result<Topology, AllocError> {
    let ports = vec![in alloc; 1, 2, 3]?;
    let switch = Switch {
        name: name(b"s1"),
        datapath: 1,
        ports,
        limit: 2000,
    };
    let switches = vec![in alloc; switch]?;
    Ok(Topology::made(switches, Vec::new(alloc)))
}

// A packet at a port of a switch.
fn at(switch: u64, port: u32) -> Packet {
    Packet::zero()
        .with(Field::Switch, switch)
        .with(Field::Port, u64::from(port))
}

// Any of two policies.
fn either(alloc: Global, one: Policy, other: Policy) -> Result<Policy, AllocError>
    requires one { IsLawfulPolicy (policy_tree one) }
    requires other { IsLawfulPolicy (policy_tree other) }
    ensures { IfOk result (λ policy. IsLawfulPolicy (policy_tree policy)) }
{
    let policies = vec![in alloc; one, other]?;
    Ok(Policy::Union(policies))
}

// One policy on what another gives.
fn then(alloc: Global, first: Policy, second: Policy) -> Result<Policy, AllocError>
    requires first { IsLawfulPolicy (policy_tree first) }
    requires second { IsLawfulPolicy (policy_tree second) }
    ensures { IfOk result (λ policy. IsLawfulPolicy (policy_tree policy)) }
{
    let policies = vec![in alloc; first, second]?;
    Ok(Policy::Seq(policies))
}

// Whether the policy gives exactly these packets on the packet, in this order.
fn gives(alloc: Global, policy: &Policy, x: Packet, wanted: &[Packet]) -> Result<bool, AllocError>
    requires { IsLawfulPolicy (policy_tree policy.now) }
{
    let topology = topology(alloc)?;
    let given = apply_plain(alloc, policy, &topology, &x)?;
    Ok(given.as_slice() == wanted)
}

#[test]
fn rewrites_that_coincide_give_one_packet(rt: HostRuntime) -> Result<(), Fail> {
    let alloc = rt.alloc();
    let rewritten = then(alloc, Policy::Mod(Field::EthDst, ADDRESS), Policy::Fwd(2))?;
    let policy = either(alloc, rewritten, Policy::Fwd(2))?;
    let there = at(1, 2).with(Field::EthDst, ADDRESS);
    assert!(rt;
        gives(
            alloc,
            &policy,
            at(1, 1).with(Field::EthDst, ADDRESS),
            &[there]
        )?
    );
    assert!(rt; gives(alloc, &policy, at(1, 1), &[at(1, 2), there])?);
    Ok(())
}
