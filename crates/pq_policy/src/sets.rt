//! Sets of packets that grow.
ghost use Rattle.std.specs.Prelude.{◌≡◌, ◌≤◌, IfOk, OnOk};
ghost use Rattle.std.specs.List.Sorted.{IsStrictlySortedBy};
ghost use Rattle.pq_fields.specs.Order.{packet_cmp};
ghost use Rattle.pq_policy.specs.Grown.{at_port, on_each, with_other_port, with_packet};

use pq_fields::{Field, Packet};
use std::alloc::{AllocError, Global};
use std::collections::BTreeSet;

/// Puts the packet into the set, where it isn't there yet.
pub(crate) fn put(x: Packet, into: &mut BTreeSet<Packet>) -> Result<(), AllocError>
    ensures { OnOk result (into.new.keys ≡ with_packet x into.old.keys) }
{
    match into.insert(x) {
        Ok(_) => Ok(()),
        Err(_) => Err(AllocError),
    }
}

/// Puts each of the packets into the set.
pub(crate) fn put_each(xs: &[Packet], into: &mut BTreeSet<Packet>) -> Result<(), AllocError>
    ensures { OnOk result (into.new.keys ≡ on_each with_packet xs.now into.old.keys) }
{
    for x in xs {
        put(*x, into)?;
    }
    Ok(())
}

/// Puts the packet at each of these ports but its own into the set.
pub(crate) fn put_at_others(
    ports: &[u32],
    x: &Packet,
    into: &mut BTreeSet<Packet>,
) -> Result<(), AllocError>
    ensures { OnOk result (into.new.keys ≡ on_each (λ p. with_other_port p x.now) ports.now into.old.keys) }
{
    for port in ports {
        put_at_other(*port, x, into)?;
    }
    Ok(())
}

/// Puts the packet at this port into the set, where that isn't its own.
fn put_at_other(port: u32, x: &Packet, into: &mut BTreeSet<Packet>) -> Result<(), AllocError>
    ensures { OnOk result (into.new.keys ≡ with_other_port port x.now into.old.keys) }
{
    if u64::from(port) == x.port {
        return Ok(());
    }
    put(at_port(port, *x), into)
}

/// The packet at this port.
pub(crate) fn at_port(port: u32, x: Packet) -> Packet
    ensures { result ≡ at_port port x }
{
    x.with(Field::Port, u64::from(port))
}

/// The packets of the set, in packet order.
pub(crate) fn listed(alloc: Global, set: BTreeSet<Packet>) -> Result<Vec<Packet>, AllocError>
    ensures packets { IfOk result (λ xs. xs.items ≡ set.keys) }
    ensures ordered { IsStrictlySortedBy packet_cmp set.keys }
{
    let mut xs = Vec::with_capacity(alloc, set.len())?;
    for x in set {
        xs.push(x)?;
    }
    Ok(xs)
}
