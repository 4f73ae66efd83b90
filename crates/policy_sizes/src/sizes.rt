//! The sizes of stores.
ghost use Rattle.std.specs.Prelude.{◌≡◌, ◌<◌, ◌≤◌, IfOk};
ghost use Rattle.pq_policy.specs.Policy.{IsLawfulPolicy, policy_tree};
ghost use Rattle.pq_forward.specs.Forward.{FitAsForward};
ghost use Rattle.policy_sizes.specs.Broadcasts.{broadcast, one_switch};
ghost use Rattle.policy_sizes.specs.Routes.{any_of, first_routes};
ghost use Rattle.policy_sizes.specs.Sizes.{IsStoreSize, nowhere};

use crate::broadcasts::{broadcast, one_switch};
use crate::routes::routes;
use pq_forward::forward;
use pq_io::Steps;
use pq_policy::Policy;
use pq_store::Store;
use pq_topo::Topology;
use std::alloc::{AllocError, Global};
use std::marker::Brand;
use std::sync::ledger::{Blank, Ledger};

/// How many nodes and leaves a store has with the diagram of this many routes, which was empty before it.
pub fn routes_size(alloc: Global, count: u32) -> Result<u64, AllocError>
    requires { 0 < count }
    ensures { IfOk result (IsStoreSize nowhere (any_of (first_routes count))) }
{
    let policy = routes(alloc, count)?;
    let topology = nowhere(alloc);
    let size = size_of::<Brand>(alloc, Blank::new(1), &topology, &policy)?;
    Ok(size)
}

/// And with the diagram of broadcast packets that go to all other ports of a switch with this many.
pub fn broadcast_size(alloc: Global, count: u32) -> Result<u64, AllocError>
    requires some { 1 ≤ count }
    requires few { count ≤ 4096 }
    ensures { IfOk result (IsStoreSize (one_switch count) broadcast) }
{
    let policy = broadcast(alloc)?;
    let topology = one_switch(alloc, count)?;
    let size = size_of::<Brand>(alloc, Blank::new(1), &topology, &policy)?;
    Ok(size)
}

/// How many nodes and leaves a store has with the diagram of a policy, which was empty before it.
fn size_of<L: Ledger>(
    alloc: Global,
    blank: Blank,
    topology: &Topology,
    policy: &Policy,
) -> Result<u64, AllocError>
    requires name { blank.name ≡ L.name }
    requires parts { blank.parts ≡ L.parts }
    requires some { 0 < blank.parts }
    requires lawful { IsLawfulPolicy (policy_tree policy.now) }
    requires fit { FitAsForward topology.now (policy_tree policy.now) }
    ensures { IfOk result (IsStoreSize topology.now (policy_tree policy.now)) }
{
    let (book, share) = blank.open();
    let mut steps: Steps<L> = Steps::start(book, share);
    let mut tests = Store::new(alloc);
    let mut store = Store::new(alloc);
    forward(&mut tests, &mut store, policy, topology, &mut steps)?;
    Ok(store.count())
}

/// The topology without switches.
fn nowhere(alloc: Global) -> Topology
    ensures { result ≡ nowhere }
{
    let switches = Vec::new(alloc);
    let links = Vec::new(alloc);
    Topology::made(switches, links)
}
