//! The policies of trees.
ghost use Rattle.std.specs.Prelude.{◌≡◌, [], ◌∷◌, map, Ok};
ghost use Rattle.pq_tree.specs.Trees.{tree, trees};
ghost use Rattle.pq_fields.specs.Pred.{pred_tree};
ghost use Rattle.pq_topo.specs.Naming.{IsAnswer, gathered};
ghost use Rattle.pq_policy.specs.Policy.{Choose, Either, InTurn, policies, policy_tree};
ghost use Rattle.pq_policy.specs.Resolved.{choice_of, filter_of, forward_of, joined, policy_of, policy_readings, write_of};

use crate::policy::Policy;
use crate::writes::write_of;
use pq_fields::Pred;
use pq_grammar::{Class, is_class};
use pq_pred::{faulty, port_value, resolve_pred};
use pq_term::Token;
use pq_topo::{NameFault, NameKind, Topology};
use pq_tree::{Term, class_in_text, text_in};
use std::alloc::Global;

/// The policy that the tree of a policy stands for; the first faulty token where there is one.
/// It recurs as deep as the text nests, at most 100.
#[cycle(resolve)]
pub fn resolve_policy(
    alloc: Global,
    term: &Term<'_>,
    bytes: &[u8],
    topology: &Topology,
) -> Result<Policy, NameFault>
    ensures { IsAnswer policy_tree result (policy_of topology.now bytes.now (tree term.now)) }
{
    let class = class_in_text(bytes, &term.head);
    if is_class(class, Class::IdentityWord) {
        return Ok(Policy::Identity);
    }
    if is_class(class, Class::DropWord) {
        return Ok(Policy::Drop);
    }
    if is_class(class, Class::FloodWord) {
        return Ok(Policy::Flood);
    }
    if is_class(class, Class::FilterWord) {
        return filter_of(alloc, &term.head, term.children, bytes, topology);
    }
    if is_class(class, Class::ModWord) {
        return write_of(&term.head, term.children, bytes, topology);
    }
    if is_class(class, Class::FwdWord) {
        return forward_of(&term.head, term.children, bytes);
    }
    if is_class(class, Class::IfWord) {
        return choice_of(alloc, &term.head, term.children, bytes, topology);
    }
    if is_class(class, Class::Plus) {
        let operands = resolve_all(alloc, term.children, bytes, topology)?;
        return union_of(&term.head, operands);
    }
    if is_class(class, Class::Then) {
        let operands = resolve_all(alloc, term.children, bytes, topology)?;
        return sequence_of(&term.head, operands);
    }
    Err(faulty(&term.head, NameKind::BadValue))
}

/// The policies of trees.
#[cycle(resolve)]
fn resolve_all(
    alloc: Global,
    terms: &[Term<'_>],
    bytes: &[u8],
    topology: &Topology,
) -> Result<Vec<Policy>, NameFault>
    ensures { IsAnswer (λ ps. map policy_tree ps.items) result (gathered (policy_readings topology.now bytes.now (trees terms.now))) }
{
    let mut found = Vec::new(alloc);
    for term in terms {
        let policy = resolve_policy(alloc, term, bytes, topology)?;
        match found.push(policy) {
            Ok(()) => {}
            Err(_) => return Err(NameFault::Memory),
        }
    }
    Ok(found)
}

/// The choice between two policies by the predicate that is the first child.
#[cycle(resolve)]
#[tactic(auto, using(crate::proofs::Choices::others))]
fn choice_of(
    alloc: Global,
    head: &Token,
    children: &[Term<'_>],
    bytes: &[u8],
    topology: &Topology,
) -> Result<Policy, NameFault>
    ensures { IsAnswer policy_tree result (choice_of topology.now bytes.now head.now (trees children.now)
        (policy_readings topology.now bytes.now (trees children.now))) }
{
    if children.len() != 3 {
        return Err(faulty(head, NameKind::BadValue));
    }
    let [pred, first, second] = children else {
        unreachable!();
    };
    let pred = resolve_pred(alloc, pred, bytes, topology)?;
    let first = resolve_policy(alloc, first, bytes, topology)?;
    let second = resolve_policy(alloc, second, bytes, topology)?;
    chosen(alloc, pred, first, second)
}

/// The choice between two policies.
fn chosen(alloc: Global, pred: Pred, first: Policy, second: Policy) -> Result<Policy, NameFault>
    ensures { IsAnswer policy_tree result (Ok (record { top = Choose (pred_tree pred); below = policies (policy_tree first ∷ policy_tree second ∷ []) })) }
{
    let Ok(first) = Box::new(alloc, first) else {
        return Err(NameFault::Memory);
    };
    let Ok(second) = Box::new(alloc, second) else {
        return Err(NameFault::Memory);
    };
    Ok(Policy::If(pred, first, second))
}

/// The filter by the predicate that is the child.
fn filter_of(
    alloc: Global,
    head: &Token,
    children: &[Term<'_>],
    bytes: &[u8],
    topology: &Topology,
) -> Result<Policy, NameFault>
    ensures { IsAnswer policy_tree result (filter_of topology.now bytes.now head.now (trees children.now)) }
{
    let [term, ..] = children else {
        return Err(faulty(head, NameKind::BadValue));
    };
    let pred = resolve_pred(alloc, term, bytes, topology)?;
    Ok(Policy::Filter(pred))
}

/// The port that is the child.
fn forward_of(head: &Token, children: &[Term<'_>], bytes: &[u8]) -> Result<Policy, NameFault>
    ensures { IsAnswer policy_tree result (forward_of bytes.now head.now (trees children.now)) }
{
    let [port, ..] = children else {
        return Err(faulty(head, NameKind::BadValue));
    };
    match port_value(text_in(bytes, &port.head)) {
        Ok(number) => Ok(Policy::Fwd(number)),
        Err(kind) => Err(faulty(&port.head, kind)),
    }
}

/// What any of the operands gives.
fn union_of(head: &Token, operands: Vec<Policy>) -> Result<Policy, NameFault>
    ensures { IsAnswer policy_tree result (joined head.now Either (map policy_tree operands.items)) }
{
    if operands.is_empty() {
        return Err(faulty(head, NameKind::BadValue));
    }
    Ok(Policy::Union(operands))
}

/// What each operand gives on what the one before it gives.
fn sequence_of(head: &Token, operands: Vec<Policy>) -> Result<Policy, NameFault>
    ensures { IsAnswer policy_tree result (joined head.now InTurn (map policy_tree operands.items)) }
{
    if operands.is_empty() {
        return Err(faulty(head, NameKind::BadValue));
    }
    Ok(Policy::Seq(operands))
}
