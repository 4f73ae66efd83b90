//! The predicates of atoms.
ghost use Rattle.std.specs.Prelude.{◌≡◌, ◌≤◌, ◌<◌, ◌+◌, ◌^◌, [], ◌∷◌, ◌++◌, IfOk, OnOk, map, drop, length};
ghost use Rattle.pq_fields.specs.Pred.{Always, leaf, pred_tree};
ghost use Rattle.pq_lower.specs.Added.{dropped, fulfilling, sent, test_at, tests};

use crate::twins::copy_of;
use pq_fields::{Field, Pred};
use pq_query::Group;
use std::alloc::{AllocError, Global};

/// Every packet.
pub(crate) fn every_packet() -> Pred
    ensures { pred_tree result ≡ leaf Always }
{
    Pred::True
}

/// The packet is at port 0.
pub(crate) fn dropped() -> Pred
    ensures { pred_tree result ≡ dropped }
{
    Pred::Equal(Field::Port, 0)
}

/// The packet is at another port.
fn sent(alloc: Global) -> Result<Pred, AllocError>
    ensures { IfOk result (λ p. pred_tree p ≡ sent) }
{
    match Box::new(alloc, dropped()) {
        Ok(dropped) => Ok(Pred::Not(dropped)),
        Err(_) => Err(AllocError),
    }
}

/// The test of a grouped field for the value at a place of the label; none passes where there is no value.
fn test_at(group: &Group, label: &[u64], place: &mut usize) -> Pred
    requires { place.old ≤ length label.now }
    ensures test { pred_tree result ≡ test_at group.now (drop place.old label.now) }
    ensures place { drop place.new label.now ≡ drop 1 (drop place.old label.now) }
    ensures within { place.new ≤ length label.now }
{
    let Some(value) = label.get(*place) else {
        return Pred::False;
    };
    *place += 1;
    Pred::Equal(group.field, *value)
}

/// Appends the tests of grouped fields for the values of the label, from a place on.
fn push_tests(
    groups: &[Group],
    label: &[u64],
    place: &mut usize,
    preds: &mut Vec<Pred>,
) -> Result<(), AllocError>
    requires { place.old ≤ length label.now }
    ensures tests { OnOk result (map pred_tree preds.new.items ≡ map pred_tree preds.old.items ++ tests groups.now (drop place.old label.now)) }
    ensures place { OnOk result (drop place.new label.now ≡ drop (length groups.now) (drop place.old label.now)) }
    ensures within { place.new ≤ length label.now }
{
    for group in groups {
        let test = test_at(group, label, place);
        preds.push(test)?;
    }
    Ok(())
}

/// The predicate and the tests of its grouped fields.
#[tactic(auto, using(crate::proofs::Places::no_more_groups))]
pub(crate) fn entering(
    alloc: Global,
    pred: &Pred,
    groups: &[Group],
    label: &[u64],
    place: &mut usize,
) -> Result<Pred, AllocError>
    requires { place.old ≤ length label.now }
    ensures pred { IfOk result (λ p. pred_tree p ≡ fulfilling (pred_tree pred.now) groups.now (drop place.old label.now) []) }
    ensures place { OnOk result (drop place.new label.now ≡ drop (length (groups.now ++ [])) (drop place.old label.now)) }
    ensures within { place.new ≤ length label.now }
{
    let copy = copy_of(alloc, pred)?;
    let mut preds = Vec::new(alloc);
    preds.push(copy)?;
    push_tests(groups, label, place, &mut preds)?;
    Ok(Pred::And(preds))
}

/// The predicate and the tests of its grouped fields, of a packet that is sent.
#[tactic(auto, using(crate::proofs::Places::no_more_groups))]
pub(crate) fn leaving(
    alloc: Global,
    pred: &Pred,
    groups: &[Group],
    label: &[u64],
    place: &mut usize,
) -> Result<Pred, AllocError>
    requires { place.old ≤ length label.now }
    ensures pred { IfOk result (λ p. pred_tree p ≡ fulfilling (pred_tree pred.now) groups.now (drop place.old label.now) (sent ∷ [])) }
    ensures place { OnOk result (drop place.new label.now ≡ drop (length (groups.now ++ [])) (drop place.old label.now)) }
    ensures within { place.new ≤ length label.now }
{
    let copy = copy_of(alloc, pred)?;
    let mut preds = Vec::new(alloc);
    preds.push(copy)?;
    push_tests(groups, label, place, &mut preds)?;
    let sent = sent(alloc)?;
    preds.push(sent)?;
    Ok(Pred::And(preds))
}

/// The predicates and the tests of a packet that enters, and of it as it is sent.
pub(crate) fn passing(
    alloc: Global,
    pred: &Pred,
    groups: &[Group],
    other: &Pred,
    others: &[Group],
    label: &[u64],
    place: &mut usize,
) -> Result<(Pred, Pred), AllocError>
    requires { place.old ≤ length label.now }
    ensures preds { IfOk result (λ both. (pred_tree both.0 ≡ fulfilling (pred_tree pred.now) groups.now (drop place.old label.now) [])
        × (pred_tree both.1 ≡ fulfilling (pred_tree other.now) others.now (drop (length groups.now) (drop place.old label.now))
        (sent ∷ []))) }
    ensures place { OnOk result (drop place.new label.now ≡ drop (length ((groups.now ++ others.now) ++ [])) (drop place.old label.now)) }
    ensures within { place.new ≤ length label.now }
{
    let first = entering(alloc, pred, groups, label, place)?;
    let second = leaving(alloc, other, others, label, place)?;
    Ok((first, second))
}

/// Adds a predicate to those from `base` on, and gives its number.
pub(crate) fn add(base: u32, pred: Pred, added: &mut Vec<Pred>) -> Result<u32, AllocError>
    requires { base + length added.old.items < 2 ^ 32 }
    ensures number { IfOk result (λ n. n ≡ base + length added.old.items) }
    ensures added { OnOk result (map pred_tree added.new.items ≡ map pred_tree added.old.items ++ pred_tree pred ∷ []) }
    ensures count { OnOk result (length added.new.items ≡ length added.old.items + 1) }
{
    let number = base + added.len() as u32;
    added.push(pred)?;
    Ok(number)
}
