//! The numbers of policies.
ghost use Rattle.std.specs.Prelude.{◌≡◌, OnOk};
ghost use Rattle.pq_policy.specs.Policy.{policy_tree, policy_trees};
ghost use Rattle.pq_values.specs.Known.{with_each, with_policies, with_policy};
ghost use Rattle.pq_values.specs.Stated.{part_trees};

use crate::numbers::put_number;
use crate::predicates::put_pred;
use indexmap::IndexSet;
use pq_fields::Field;
use pq_policy::Policy;
use pq_term::Name;
use std::alloc::AllocError;

/// Adds the numbers that the policy tests and writes, and the ports that it sends to.
/// It recurs as deep as the policy nests, in a document at most 100.
#[cycle(policy)]
fn put_policy(policy: &Policy, known: &mut IndexSet<(Field, u64)>) -> Result<(), AllocError>
    ensures { OnOk result (known.new.keys ≡ with_policy (policy_tree policy.now) known.old.keys) }
{
    match policy {
        Policy::Identity => Ok(()),
        Policy::Drop => Ok(()),
        Policy::Flood => Ok(()),
        Policy::Filter(pred) => put_pred(pred, known),
        Policy::Mod(field, number) => put_number(*field, *number, known),
        Policy::Fwd(port) => put_number(Field::Port, u64::from(*port), known),
        Policy::If(pred, yes, no) => {
            put_pred(pred, known)?;
            put_policy(yes, known)?;
            put_policy(no, known)
        }
        Policy::Union(policies) => put_policies(policies, known),
        Policy::Seq(policies) => put_policies(policies, known),
    }
}

/// Adds the numbers of the policies.
#[cycle(policy)]
fn put_policies(policies: &[Policy], known: &mut IndexSet<(Field, u64)>) -> Result<(), AllocError>
    ensures { OnOk result (known.new.keys ≡ with_policies (policy_trees policies.now) known.old.keys) }
{
    for policy in policies {
        put_policy(policy, known)?;
    }
    Ok(())
}

/// Adds the numbers of parts.
pub(crate) fn put_parts(
    parts: &[(Name, Policy)],
    known: &mut IndexSet<(Field, u64)>,
) -> Result<(), AllocError>
    ensures { OnOk result (known.new.keys ≡ with_each with_policy (part_trees parts.now) known.old.keys) }
{
    for part in parts {
        put_policy(&part.1, known)?;
    }
    Ok(())
}
