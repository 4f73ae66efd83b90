//! The diagrams of conjunctions, disjunctions and negations.
ghost use Rattle.std.specs.Prelude.{◌≡◌, ◌<◌, All, true, false, [], ◌∷◌, List, Bool, length, Some, slice_get, IfOk};
ghost use Rattle.pq_store.specs.Tree.{Tree};
ghost use Rattle.pq_store.specs.Store.{Keeps};
ghost use Rattle.pq_apply.specs.Junction.{FitTogetherAll, JunctionAt, RecodesAt, trees_at};

use crate::choice::ite;
use pq_store::{NodeId, Store};
use std::alloc::AllocError;

/// The diagram that holds where all of these do (`every`), or where one of them does. It recurs as deep as the list halves.
pub(crate) fn junction(
    store: &mut Store<bool>,
    scratch: &mut Store<bool>,
    every: bool,
    operands: &[NodeId],
) -> Result<NodeId, AllocError>
    requires within { All (λ id. id < length store.old) operands.now }
    requires fits { FitTogetherAll (trees_at store.old operands.now) }
    ensures joins { IfOk result (λ id. JunctionAt every (trees_at store.old operands.now) store.new id) }
    ensures keeps { Keeps store.old store.new }
    ensures scratch { Keeps scratch.old scratch.new }
{
    match operands {
        [] => {
            let id = store.leaf(every)?;
            Ok(id)
        }
        [id] => Ok(*id),
        _ => {
            let (front, back) = operands.split_at(operands.len() / 2);
            let x = junction(store, scratch, every, front)?;
            let y = junction(store, scratch, every, back)?;
            let id = joined(store, scratch, every, x, y)?;
            Ok(id)
        }
    }
}

/// The diagram that holds where both of these do (`every`), or where one of them does.
fn joined(
    store: &mut Store<bool>,
    scratch: &mut Store<bool>,
    every: bool,
    x: NodeId,
    y: NodeId,
) -> Result<NodeId, AllocError>
    requires x { x < length store.old }
    requires y { y < length store.old }
    requires fits { (t u : Tree Bool) → slice_get store.old x ≡ Some t → slice_get store.old y ≡ Some u → FitTogetherAll (t ∷ u ∷ []) }
    ensures joins { IfOk result (λ id. (t u : Tree Bool) → slice_get store.old x ≡ Some t → slice_get store.old y ≡ Some u
        → JunctionAt every (t ∷ u ∷ []) store.new id) }
    ensures keeps { Keeps store.old store.new }
    ensures scratch { Keeps scratch.old scratch.new }
{
    let condition = recoded(store, x, scratch, true, false)?;
    let leaf = store.leaf(!every)?;
    if every {
        let id = ite(scratch, condition, store, y, leaf)?;
        return Ok(id);
    }
    let id = ite(scratch, condition, store, leaf, y)?;
    Ok(id)
}

/// The diagram that gives one value where another diagram holds, and one elsewhere, in another store.
pub(crate) fn recoded(
    from: &Store<bool>,
    node: NodeId,
    into: &mut Store<bool>,
    yes: bool,
    no: bool,
) -> Result<NodeId, AllocError>
    requires node { node < length from.now }
    requires fits { (t : Tree Bool) → slice_get from.now node ≡ Some t → FitTogetherAll (t ∷ []) }
    ensures recodes { IfOk result (λ id. RecodesAt yes no from.now node into.new id) }
    ensures keeps { Keeps into.old into.new }
{
    let yes_leaf = into.leaf(yes)?;
    let no_leaf = into.leaf(no)?;
    let id = ite(from, node, into, yes_leaf, no_leaf)?;
    Ok(id)
}
