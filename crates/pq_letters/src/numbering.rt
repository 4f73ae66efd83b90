//! The numbers of letters: by ascending least packet.
ghost use Rattle.std.specs.Prelude.{◌≡◌, ◌≢◌, ◌<◌, ◌++◌, [], ◌∷◌, Bool, List, Ok, Some, length, slice_get, IfOk, OnOk};
ghost use Rattle.std.specs.List.{AllPairs};
ghost use Rattle.pq_store.specs.Tree.{Tree};
ghost use Rattle.pq_store.specs.Store.{Keeps};
ghost use Rattle.pq_letters.specs.Numbering.{AreLeaves, FitsAlone, HaveSignatures, NumbersAt, packets, place_in};

use crate::signature::Signature;
use indexmap::IndexSet;
use pq_apply::product;
use pq_fields::Packet;
use pq_store::{Least, NodeId, Store, View};
use std::alloc::{AllocError, Global};

/// The signatures of the leaves that were found, in order.
pub(crate) fn signatures_of(
    signed: &Store<Signature>,
    found: &[Least],
) -> Result<IndexSet<Signature>, AllocError>
    requires leaves { AreLeaves signed.now found.now }
    requires differ { AllPairs (λ d e. d.leaf ≢ e.leaf) found.now }
    ensures { IfOk result (λ signatures. HaveSignatures signed.now found.now signatures.keys) }
{
    let mut signatures = IndexSet::new(signed.allocator());
    for each in found {
        match signed.view(each.leaf) {
            View::Leaf(signature) => add(&mut signatures, signature)?,
            View::Node(_, _, _) => unreachable!(),
        }
    }
    Ok(signatures)
}

/// Adds a copy of a signature that is not there yet.
fn add(signatures: &mut IndexSet<Signature>, signature: &Signature) -> Result<(), AllocError>
    requires { place_in signatures.old.keys signature.now ≡ length signatures.old.keys }
    ensures { OnOk result (signatures.new.keys ≡ signatures.old.keys ++ signature.now ∷ []) }
{
    let truths = Vec::from_slice(*signatures.allocator(), &signature.truths)?;
    match signatures.insert_full(Signature { truths }) {
        Ok(_) => Ok(()),
        Err(_) => Err(AllocError),
    }
}

/// The packets of what was found, in order.
pub(crate) fn packets_of(alloc: Global, found: &[Least]) -> Result<Vec<Packet>, AllocError>
    ensures { IfOk result (λ xs. xs.items ≡ packets found.now) }
{
    let mut least = Vec::with_capacity(alloc, found.len())?;
    for each in found {
        least.push(each.packet)?;
    }
    Ok(least)
}

/// The place of a signature, and the number of them where it isn't there.
fn place(signatures: &IndexSet<Signature>, signature: &Signature) -> u64
    ensures { result ≡ place_in signatures.now.keys signature.now }
{
    match signatures.get_index_of(signature) {
        Some(place) => place as u64,
        None => signatures.len() as u64,
    }
}

/// The diagram with the place of each leaf's signature.
pub(crate) fn numbered(
    signed: &Store<Signature>,
    node: NodeId,
    signatures: &IndexSet<Signature>,
    into: &mut Store<u64>,
) -> Result<NodeId, AllocError>
    requires node { node < length signed.now }
    requires fits { (t : Tree (List Bool)) → slice_get signed.now node ≡ Some t → FitsAlone t }
    ensures numbers { IfOk result (λ id. NumbersAt signatures.now.keys signed.now node into.new id) }
    ensures keeps { Keeps into.old into.new }
{
    let mut truth = Store::new(into.allocator());
    let leaf = truth.leaf(true)?;
    let join = |signature: &Signature, _: &bool| -> Result<u64, AllocError>
        ensures { result ≡ Ok (place_in signatures.entry.now.keys signature.now) }
    { Ok(place(signatures, signature)) };
    let id = product(signed, node, &truth, leaf, into, &join)?;
    Ok(id)
}
