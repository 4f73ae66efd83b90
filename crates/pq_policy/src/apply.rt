//! What a policy gives on one packet.
ghost use Rattle.std.specs.Prelude.{◌≡◌, ◌<◌, ◌^◌, true, false, [], ◌∷◌, IfOk, OnOk, if◌then◌else◌};
ghost use Rattle.pq_fields.specs.Packet.{has_field, width_of, with_number};
ghost use Rattle.pq_fields.specs.Pred.{holds, pred_tree};
ghost use Rattle.pq_policy.specs.Grown.{grown, grown_together, on_each, with_packet};
ghost use Rattle.pq_policy.specs.Policy.{
  AnyOne,
  AreLawfulPolicies,
  Chained,
  IsLawfulPolicy,
  IsListOf,
  is_writable,
  policy_tree,
  policy_trees,
  written,
  yields,
};

use crate::policy::Policy;
use crate::sets::{at_port, listed, put, put_at_others, put_each};
use pq_fields::{Field, Packet, Pred, has, holds, packets_are_ordered_by_numbers};
use pq_topo::Topology;
use std::alloc::{AllocError, Global};
use std::collections::BTreeSet;

/// The packets that a lawful policy gives on the packet, each once, in packet order; it fails only where there is no
/// memory for them.
pub fn apply_plain(
    alloc: Global,
    policy: &Policy,
    topology: &Topology,
    x: &Packet,
) -> Result<Vec<Packet>, AllocError>
    requires { IsLawfulPolicy (policy_tree policy.now) }
    ensures { IfOk result (λ ys. IsListOf (yields topology.now (policy_tree policy.now) x.now) ys.items) }
{
    packets_are_ordered_by_numbers();
    let mut given = BTreeSet::new(alloc);
    add(alloc, policy, topology, x, &mut given)?;
    listed(alloc, given)
}

/// Adds what the policy gives on the packet. It recurs as deep as the policy nests, in a document at most 100.
#[cycle(apply)]
fn add(
    alloc: Global,
    policy: &Policy,
    topology: &Topology,
    x: &Packet,
    into: &mut BTreeSet<Packet>,
) -> Result<(), AllocError>
    requires { IsLawfulPolicy (policy_tree policy.now) }
    ensures { OnOk result (into.new.keys ≡ grown topology.now (policy_tree policy.now) x.now into.old.keys) }
{
    match policy {
        Policy::Identity => put(*x, into),
        Policy::Drop => Ok(()),
        Policy::Flood => put_at_others(topology.ports_of(x.switch), x, into),
        Policy::Filter(pred) => add_where(pred, x, into),
        Policy::Mod(field, number) => put(written(*field, *number, x), into),
        Policy::Fwd(port) => put(at_port(*port, *x), into),
        Policy::If(pred, yes, no) => {
            if holds(pred, x) {
                return add(alloc, yes, topology, x, into);
            }
            add(alloc, no, topology, x, into)
        }
        Policy::Union(policies) => add_any(alloc, policies, topology, x, into),
        Policy::Seq(policies) => add_chained(alloc, policies, topology, x, into),
    }
}

/// Adds what any of the policies gives on the packet.
#[cycle(apply)]
fn add_any(
    alloc: Global,
    policies: &[Policy],
    topology: &Topology,
    x: &Packet,
    into: &mut BTreeSet<Packet>,
) -> Result<(), AllocError>
    requires { AreLawfulPolicies (policy_trees policies.now) }
    ensures { OnOk result (into.new.keys ≡ grown_together topology.now (policy_trees policies.now) AnyOne (x.now ∷ []) into.old.keys) }
{
    for policy in policies {
        add(alloc, policy, topology, x, into)?;
    }
    Ok(())
}

/// Adds what the policies give on the packet, each on what the one before it gives.
#[cycle(apply)]
fn add_chained(
    alloc: Global,
    policies: &[Policy],
    topology: &Topology,
    x: &Packet,
    into: &mut BTreeSet<Packet>,
) -> Result<(), AllocError>
    requires { AreLawfulPolicies (policy_trees policies.now) }
    ensures { OnOk result (into.new.keys ≡ grown_together topology.now (policy_trees policies.now) Chained (x.now ∷ []) into.old.keys) }
{
    let mut given = vec![in alloc; *x]?;
    for policy in policies {
        given = next(alloc, policy, topology, &given)?;
    }
    put_each(&given, into)
}

/// What the policy gives on any of the packets, each once, in packet order.
#[cycle(apply)]
fn next(
    alloc: Global,
    policy: &Policy,
    topology: &Topology,
    xs: &[Packet],
) -> Result<Vec<Packet>, AllocError>
    requires { IsLawfulPolicy (policy_tree policy.now) }
    ensures { IfOk result (λ ys. ys.items ≡ on_each (grown topology.now (policy_tree policy.now)) xs.now []) }
{
    let mut given = BTreeSet::new(alloc);
    for x in xs {
        add(alloc, policy, topology, x, &mut given)?;
    }
    listed(alloc, given)
}

/// Adds the packet where the predicate holds.
fn add_where(pred: &Pred, x: &Packet, into: &mut BTreeSet<Packet>) -> Result<(), AllocError>
    ensures { OnOk result (into.new.keys ≡ (if holds (pred_tree pred.now) x.now then with_packet x.now into.old.keys else into.old.keys)) }
{
    if !holds(pred, x) {
        return Ok(());
    }
    put(*x, into)
}

/// The packet with the field written, and unchanged where it lacks the field.
fn written(field: Field, number: u64, x: &Packet) -> Packet
    requires fits { number < 2 ^ width_of field }
    requires writable { is_writable field ≡ true }
    ensures { result ≡ written field number x.now }
{
    if !has(field, x) {
        return *x;
    }
    x.with(field, number)
}
