//! The letters of predicates, from the diagram of which of them hold.
ghost use Rattle.std.specs.Prelude.{◌≡◌, ◌<◌, ◌++◌, [], ◌∷◌, All, Bool, List, Some, length, slice_get, IfOk};
ghost use Rattle.pq_store.specs.Tree.{Tree};
ghost use Rattle.pq_store.specs.Store.{Keeps};
ghost use Rattle.pq_apply.specs.Junction.{FitTogetherAll, trees_at};
ghost use Rattle.pq_apply.specs.Product.{FitTogetherAt};
ghost use Rattle.pq_letters.specs.Letters.{IsPartition, SignedAt};

use crate::letters::Letters;
use crate::numbering::{numbered, packets_of, signatures_of};
use crate::signature::Signature;
use pq_apply::{ite, product};
use pq_store::{NodeId, Store};
use std::alloc::{AllocError, Global};

/// The letters of these predicates: two packets have the same letter exactly where the same predicates hold of them.
///
/// There is room for the numbers that the diagrams of the predicates test. The diagram of the letters tests no others.
pub fn partition(store: &mut Store<bool>, preds: &[NodeId]) -> Result<Letters, AllocError>
    requires within { All (λ id. id < length store.old) preds.now }
    requires fits { FitTogetherAll (trees_at store.old preds.now) }
    ensures partition { IfOk result (λ letters. IsPartition (trees_at store.old preds.now) letters) }
    ensures keeps { Keeps store.old store.new }
{
    let alloc = store.allocator();
    let mut signed = Store::new(alloc);
    let node = signed_node(store, preds, &mut signed)?;
    let found = signed.least(node)?;
    let signatures = signatures_of(&signed, &found)?;
    let mut numbers = Store::new(alloc);
    let root = numbered(&signed, node, &signatures, &mut numbers)?;
    let least = packets_of(alloc, &found)?;
    Ok(Letters {
        store: numbers,
        root,
        signatures,
        least,
    })
}

/// The diagram that says of each packet which of the predicates hold. They are joined by halves, so that each is met a few
/// times only. It recurs as deep as the list of predicates halves.
fn signed_node(
    store: &Store<bool>,
    preds: &[NodeId],
    into: &mut Store<Signature>,
) -> Result<NodeId, AllocError>
    requires within { All (λ id. id < length store.now) preds.now }
    requires fits { FitTogetherAll (trees_at store.now preds.now) }
    ensures signed { IfOk result (λ id. SignedAt (trees_at store.now preds.now) into.new id) }
    ensures keeps { Keeps into.old into.new }
{
    let alloc = into.allocator();
    match preds {
        [] => {
            let id = into.leaf(signature(Vec::new(alloc)))?;
            Ok(id)
        }
        [pred] => {
            let id = one_signed(store, *pred, into)?;
            Ok(id)
        }
        _ => {
            let (front, back) = preds.split_at(preds.len() / 2);
            let mut left = Store::new(alloc);
            let x = signed_node(store, front, &mut left)?;
            let mut right = Store::new(alloc);
            let y = signed_node(store, back, &mut right)?;
            let id = both_signed(&left, x, &right, y, into)?;
            Ok(id)
        }
    }
}

/// The signature with these truths.
fn signature(truths: Vec<bool>) -> Signature
    ensures { result ≡ truths.items }
{
    Signature { truths }
}

/// The diagram that says whether one predicate holds.
fn one_signed(
    store: &Store<bool>,
    pred: NodeId,
    into: &mut Store<Signature>,
) -> Result<NodeId, AllocError>
    requires pred { pred < length store.now }
    requires fits { (u : Tree Bool) → slice_get store.now pred ≡ Some u → FitTogetherAll (u ∷ []) }
    ensures signed { IfOk result (λ id. (u : Tree Bool) → slice_get store.now pred ≡ Some u → SignedAt (u ∷ []) into.new id) }
    ensures keeps { Keeps into.old into.new }
{
    let alloc = into.allocator();
    let yes = into.leaf(signature(vec![in alloc; true]?))?;
    let no = into.leaf(signature(vec![in alloc; false]?))?;
    let id = ite(store, pred, into, yes, no)?;
    Ok(id)
}

/// The diagram that says what two others say, the truths of the first before those of the second.
fn both_signed(
    left: &Store<Signature>,
    x: NodeId,
    right: &Store<Signature>,
    y: NodeId,
    into: &mut Store<Signature>,
) -> Result<NodeId, AllocError>
    requires x { x < length left.now }
    requires y { y < length right.now }
    requires fits { FitTogetherAt left.now x right.now y }
    ensures signed { IfOk result (λ id. (us vs : List (Tree Bool)) → SignedAt us left.now x → SignedAt vs right.now y → SignedAt (us ++ vs) into.new id) }
    ensures keeps { Keeps into.old into.new }
{
    let alloc = into.allocator();
    let join = |a: &Signature, b: &Signature| -> Result<Signature, AllocError>
        ensures { IfOk result (λ c. c ≡ a.now ++ b.now) }
    { joined(alloc, a, b) };
    let id = product(left, x, right, y, into, &join)?;
    Ok(id)
}

/// The truths of the first signature and then those of the second.
fn joined(alloc: Global, a: &Signature, b: &Signature) -> Result<Signature, AllocError>
    ensures { IfOk result (λ c. c ≡ a.now ++ b.now) }
{
    let mut truths = Vec::with_capacity(alloc, a.truths.len() + b.truths.len())?;
    truths.extend_from_slice(&a.truths)?;
    truths.extend_from_slice(&b.truths)?;
    Ok(signature(truths))
}
