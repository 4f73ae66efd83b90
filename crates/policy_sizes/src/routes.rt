//! Long unions of routes, whose networks are out of order.
ghost use Rattle.std.specs.Prelude.{◌≡◌, IfOk};
ghost use Rattle.pq_policy.specs.Policy.{policy_tree};
ghost use Rattle.policy_sizes.specs.Routes.{any_of, first_routes, network, route, to_network, to_port};

use pq_fields::{Field, Pred};
use pq_policy::Policy;
use std::alloc::{AllocError, Global};

/// The union of this many routes.
pub fn routes(alloc: Global, count: u32) -> Result<Policy, AllocError>
    ensures { IfOk result (λ policy. policy_tree policy ≡ any_of (first_routes count)) }
{
    let mut operands = Vec::new(alloc);
    for place in 0..count {
        operands.push(route(alloc, place)?)?;
    }
    Ok(Policy::Union(operands))
}

/// The route at a place: packets to its network go to its port.
fn route(alloc: Global, place: u32) -> Result<Policy, AllocError>
    ensures { IfOk result (λ policy. policy_tree policy ≡ route place) }
{
    let operands = vec![in alloc; to_network(place), to_port(place)]?;
    Ok(Policy::Seq(operands))
}

/// The packets to the network at a place.
fn to_network(place: u32) -> Policy
    ensures { policy_tree result ≡ to_network place }
{
    Policy::Filter(Pred::Prefix(Field::Ipv4Dst, network(place), 24))
}

/// The network at a place: from 10.0.0.0 on, each is 7,919 networks of length 24 after the one before, modulo 65,536.
fn network(place: u32) -> u32
    ensures { result ≡ network place }
{
    let step = (u64::from(place) * 7919 % 65536) as u32;
    0x0a00_0000 + 256 * step
}

/// Port 1 or 2, in turn.
fn to_port(place: u32) -> Policy
    ensures { policy_tree result ≡ to_port place }
{
    Policy::Fwd(place % 2 + 1)
}
