//! The diagrams of predicates.
ghost use Rattle.std.specs.Prelude.{◌≡◌, Bool, true, false, List, Some, slice_get, IfOk};
ghost use Rattle.pq_fields.specs.Pred.{AreLawful, IsLawfulPred, pred_tree, pred_trees};
ghost use Rattle.pq_store.specs.Store.{Keeps};
ghost use Rattle.pq_apply.specs.Operands.{FitAsNodes, HoldAt, JoinedAt};
ghost use Rattle.pq_apply.specs.Predicates.{FitsAsNode, HoldsAt};

use crate::atoms::{equal_number, equal_prefix};
use crate::junction::{junction, recoded};
use pq_fields::Pred;
use pq_store::{NodeId, Store};
use std::alloc::AllocError;

/// The diagram that says of each packet whether the predicate holds.
///
/// There is room for its numbers and those in prerequisites. The diagram tests no others.
pub fn pred_node(store: &mut Store<bool>, pred: &Pred) -> Result<NodeId, AllocError>
    requires lawful { IsLawfulPred (pred_tree pred.now) }
    requires fits { FitsAsNode (pred_tree pred.now) }
    ensures holds { IfOk result (λ id. HoldsAt (pred_tree pred.now) store.new id) }
    ensures keeps { Keeps store.old store.new }
{
    let mut scratch = Store::new(store.allocator());
    let id = build(store, &mut scratch, pred)?;
    Ok(id)
}

/// The diagram of a predicate. Conditions are built in the other store, since a choice reads one store and writes to another.
/// It recurs as deep as the predicate nests, in a document at most 100.
#[cycle(build)]
fn build(
    store: &mut Store<bool>,
    scratch: &mut Store<bool>,
    pred: &Pred,
) -> Result<NodeId, AllocError>
    requires lawful { IsLawfulPred (pred_tree pred.now) }
    requires fits { FitsAsNode (pred_tree pred.now) }
    ensures holds { IfOk result (λ id. HoldsAt (pred_tree pred.now) store.new id) }
    ensures keeps { Keeps store.old store.new }
    ensures scratch { Keeps scratch.old scratch.new }
{
    match pred {
        Pred::True => store.leaf(true),
        Pred::False => store.leaf(false),
        Pred::Equal(field, value) => equal_number(store, *field, *value),
        Pred::Prefix(field, value, len) => equal_prefix(store, *field, u128::from(*value), *len),
        Pred::Wide(field, value, len) => equal_prefix(store, *field, *value, *len),
        Pred::And(preds) => join(store, scratch, true, preds),
        Pred::Or(preds) => join(store, scratch, false, preds),
        Pred::Not(pred) => {
            let inner = build(scratch, store, pred)?;
            let id = recoded(scratch, inner, store, false, true)?;
            Ok(id)
        }
    }
}

/// The diagram that holds where all of the predicates do (`every`), or where one of them does.
#[cycle(build)]
fn join(
    store: &mut Store<bool>,
    scratch: &mut Store<bool>,
    every: bool,
    preds: &[Pred],
) -> Result<NodeId, AllocError>
    requires lawful { AreLawful (pred_trees preds.now) }
    requires fits { FitAsNodes (pred_trees preds.now) }
    ensures joined { IfOk result (λ id. JoinedAt every (pred_trees preds.now) store.new id) }
    ensures keeps { Keeps store.old store.new }
    ensures scratch { Keeps scratch.old scratch.new }
{
    let operands = build_all(store, scratch, preds)?;
    let id = junction(store, scratch, every, &operands)?;
    Ok(id)
}

/// The diagrams of the predicates.
#[cycle(build)]
fn build_all(
    store: &mut Store<bool>,
    scratch: &mut Store<bool>,
    preds: &[Pred],
) -> Result<Vec<NodeId>, AllocError>
    requires lawful { AreLawful (pred_trees preds.now) }
    requires fits { FitAsNodes (pred_trees preds.now) }
    ensures hold { IfOk result (λ ids. HoldAt (pred_trees preds.now) store.new ids.items) }
    ensures keeps { Keeps store.old store.new }
    ensures scratch { Keeps scratch.old scratch.new }
{
    let mut nodes = Vec::new(store.allocator());
    for pred in preds {
        let node = build(store, scratch, pred)?;
        nodes.push(node)?;
    }
    Ok(nodes)
}
