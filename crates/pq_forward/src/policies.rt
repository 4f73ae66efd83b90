//! The diagram of a policy, from those of its operands.
ghost use Rattle.std.specs.Prelude.{◌≡◌, ◌<◌, ◌≤◌, ◌+◌, [], ◌∷◌, length, Some, slice_get, if◌then◌else◌, IfOk};
ghost use Rattle.pq_fields.specs.Pred.{IsLawfulPred, holds, pred_tree};
ghost use Rattle.pq_fields.specs.Writes.{no_writes};
ghost use Rattle.pq_policy.specs.Policy.{
  AreLawfulPolicies,
  IsLawfulPolicy,
  policy_tree,
  policy_trees,
};
ghost use Rattle.pq_store.specs.Tree.Tree.{Tip};
ghost use Rattle.pq_store.specs.Store.{HasAt, Keeps};
ghost use Rattle.pq_apply.specs.Predicates.{FitsAsNode};
ghost use Rattle.pq_rewrite.specs.Choices.{ChoosesByAt, FitByAt};
ghost use Rattle.pq_rewrite.specs.Rewriting.{IsCanonicalRewriting};
ghost use Rattle.pq_forward.specs.Forward.{
  FitAsForward,
  FitAsForwards,
  IsFiltered,
  IsForward,
  IsForwards,
  joint,
  pred_needs,
  work,
  work_of,
};

use crate::flood::flood;
use crate::leaves::{nothing, single};
use pq_apply::{ite, pred_node};
use pq_fields::{Field, Pred, Writes};
use pq_io::Steps;
use pq_policy::Policy;
use pq_rewrite::{WriteSet, equal_rewritings_are_one, keep, then, union, write};
use pq_store::{NodeId, Store};
use pq_topo::Topology;
use std::alloc::AllocError;
use std::sync::ledger::Ledger;

/// The diagram that gives on each packet the packets that the policy gives on it, by writes that change the packet.
///
/// The policy is lawful, and there is room for the numbers that it and the topology state, and those in prerequisites. The
/// diagram tests and writes no others. A union or a sequence of m operands takes m - 1 steps and those of its operands, an `if`
/// those of both sides, and any other policy none. Conditions are built in `tests`.
pub fn forward<L: Ledger>(
    tests: &mut Store<bool>,
    store: &mut Store<WriteSet>,
    policy: &Policy,
    topology: &Topology,
    steps: &mut Steps<L>,
) -> Result<NodeId, AllocError>
    requires lawful { IsLawfulPolicy (policy_tree policy.now) }
    requires fit { FitAsForward topology.now (policy_tree policy.now) }
    ensures forwards { IfOk result (λ id. HasAt (IsForward topology.now (policy_tree policy.now)) store.new id) }
    ensures tests { Keeps tests.old tests.new }
    ensures keeps { Keeps store.old store.new }
    ensures canonical { IfOk result (λ id. IsCanonicalRewriting store.new) }
    ensures steps { steps.new ≤ steps.old + work (policy_tree policy.now) }
{
    let id = built(tests, store, policy, topology, steps)?;
    equal_rewritings_are_one(store, id);
    Ok(id)
}

/// The diagram of a policy. It recurs as deep as the policy nests, and its lists halve on the way.
#[cycle(built)]
fn built<L: Ledger>(
    tests: &mut Store<bool>,
    store: &mut Store<WriteSet>,
    policy: &Policy,
    topology: &Topology,
    steps: &mut Steps<L>,
) -> Result<NodeId, AllocError>
    requires lawful { IsLawfulPolicy (policy_tree policy.now) }
    requires fit { FitAsForward topology.now (policy_tree policy.now) }
    ensures forwards { IfOk result (λ id. HasAt (IsForward topology.now (policy_tree policy.now)) store.new id) }
    ensures tests { Keeps tests.old tests.new }
    ensures keeps { Keeps store.old store.new }
    ensures steps { steps.new ≤ steps.old + work (policy_tree policy.now) }
{
    match policy {
        Policy::Identity => single(store, Writes::none()),
        Policy::Drop => nothing(store),
        Policy::Flood => flood(store, topology),
        Policy::Filter(pred) => filtered(tests, store, pred),
        Policy::Mod(field, number) => write(store, *field, *number),
        Policy::Fwd(port) => write(store, Field::Port, u64::from(*port)),
        Policy::If(pred, yes, no) => {
            let passed = built(tests, store, yes, topology, steps)?;
            let failed = built(tests, store, no, topology, steps)?;
            let id = chosen(tests, store, pred, passed, failed)?;
            Ok(id)
        }
        Policy::Union(policies) => joined(tests, store, policies, topology, steps, false),
        Policy::Seq(policies) => joined(tests, store, policies, topology, steps, true),
    }
}

/// The diagram of policies one after another (`in_turn`), or of any of them. They are joined by halves, so that each is met a
/// few times only. It recurs as deep as the policy nests, and its lists halve on the way.
#[cycle(built)]
fn joined<L: Ledger>(
    tests: &mut Store<bool>,
    store: &mut Store<WriteSet>,
    policies: &[Policy],
    topology: &Topology,
    steps: &mut Steps<L>,
    in_turn: bool,
) -> Result<NodeId, AllocError>
    requires lawful { AreLawfulPolicies (policy_trees policies.now) }
    requires fit { FitAsForwards topology.now (policy_trees policies.now) }
    ensures forwards { IfOk result (λ id. HasAt (IsForwards topology.now (joint in_turn) (policy_trees policies.now)) store.new id) }
    ensures tests { Keeps tests.old tests.new }
    ensures keeps { Keeps store.old store.new }
    ensures steps { steps.new ≤ steps.old + work_of (policy_trees policies.now) }
{
    match policies {
        [] => none_joined(store, in_turn),
        [policy] => built(tests, store, policy, topology, steps),
        _ => {
            let (front, back) = policies.split_at(policies.len() / 2);
            let x = joined(tests, store, front, topology, steps, in_turn)?;
            let y = joined(tests, store, back, topology, steps, in_turn)?;
            if in_turn {
                let id = then(store, x, y, steps)?;
                return Ok(id);
            }
            let id = union(store, x, y, steps)?;
            Ok(id)
        }
    }
}

/// The diagram of no policies: of a sequence the packet, and of a union nothing.
fn none_joined(store: &mut Store<WriteSet>, in_turn: bool) -> Result<NodeId, AllocError>
    ensures leaf { IfOk result (λ id. slice_get store.new id ≡ Some (Tip (if in_turn then no_writes ∷ [] else []))) }
    ensures keeps { Keeps store.old store.new }
{
    if in_turn {
        return single(store, Writes::none());
    }
    nothing(store)
}

/// The diagram that gives each packet of which the predicate holds.
fn filtered(
    tests: &mut Store<bool>,
    store: &mut Store<WriteSet>,
    pred: &Pred,
) -> Result<NodeId, AllocError>
    requires lawful { IsLawfulPred (pred_tree pred.now) }
    requires fits { FitsAsNode (pred_tree pred.now) }
    ensures filters { IfOk result (λ id. HasAt (IsFiltered (pred_tree pred.now)) store.new id) }
    ensures tests { Keeps tests.old tests.new }
    ensures keeps { Keeps store.old store.new }
{
    let condition = pred_node(tests, pred)?;
    let id = keep(tests, condition, store)?;
    Ok(id)
}

/// The diagram that gives what the first gives where the predicate holds, and what the second gives elsewhere.
fn chosen(
    tests: &mut Store<bool>,
    store: &mut Store<WriteSet>,
    pred: &Pred,
    yes: NodeId,
    no: NodeId,
) -> Result<NodeId, AllocError>
    requires lawful { IsLawfulPred (pred_tree pred.now) }
    requires yes { yes < length store.old }
    requires no { no < length store.old }
    requires fit { FitByAt (pred_needs (pred_tree pred.now)) store.old yes no }
    ensures chooses { IfOk result (λ id. ChoosesByAt (holds (pred_tree pred.now)) (pred_needs (pred_tree pred.now)) store.old yes no store.new id) }
    ensures tests { Keeps tests.old tests.new }
    ensures keeps { Keeps store.old store.new }
{
    let condition = pred_node(tests, pred)?;
    let id = ite(tests, condition, store, yes, no)?;
    Ok(id)
}
