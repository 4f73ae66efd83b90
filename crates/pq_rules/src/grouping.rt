//! The groups of entries with more than one copy.
ghost use Rattle.std.specs.Prelude.{◌≡◌, ◌==◌, [], All, Some, map, slice_get, IfOk, OnOk};
ghost use Rattle.indexmap.specs.IndexSet.{insert_key};
ghost use Rattle.pq_apply.specs.Memo.{Remembers};
ghost use Rattle.pq_rewrite.specs.Leaves.{copies_eq};
ghost use Rattle.pq_rules.specs.Grouping.{
  ArePlaces,
  IsLeafAt,
  IsNoted,
  IsPlace,
  group_copies,
  in_bucket,
  leaf_at,
  resolved,
  with_group,
  with_groups,
};

use crate::counting::{recall, remember};
use indexmap::{IndexMap, IndexSet};
use pq_fields::Writes;
use pq_model::Match;
use pq_rewrite::{Copies, OutKind, Outgoing};
use pq_store::{NodeId, Store, View};
use std::alloc::AllocError;

/// The groups of a switch by first use in entry order, each as copies, and for each entry the place of its group.
#[derive(Drop)]
pub(crate) struct Grouping {
    pub groups: IndexSet<Copies>,
    pub places: Vec<Option<u64>>,
}

/// The copies at a leaf.
pub(crate) fn leaf_copies(store: &Store<Copies>, leaf: NodeId) -> &[Outgoing]
    requires { IsLeafAt store.now leaf }
    ensures { result.now ≡ leaf_at [] store.now leaf }
{
    match store.view(leaf) {
        View::Leaf(copies) => copies.list(),
        View::Node(_, _, _) => unreachable!(),
    }
}

/// The groups of these entries.
pub(crate) fn grouped(
    store: &Store<Copies>,
    entries: &[(Match, NodeId)],
) -> Result<Grouping, AllocError>
    requires { All (λ e. IsLeafAt store.now e.1) entries.now }
    ensures groups { IfOk result (λ g. g.groups.keys ≡ with_groups [] (resolved [] store.now entries.now)) }
    ensures places { IfOk result (λ g. ArePlaces g.groups.keys (resolved [] store.now entries.now) g.places.items) }
{
    let alloc = store.allocator();
    let mut groups = IndexSet::new(alloc);
    let mut known = IndexMap::new(alloc);
    let mut places = Vec::with_capacity(alloc, entries.len())?;
    for entry in entries {
        let place = group_place(store, entry.1, &mut groups, &mut known)?;
        places.push(place)?;
    }
    Ok(Grouping { groups, places })
}

/// The place of a leaf's group among the groups, which takes it where it isn't there; none where the leaf needs no group.
fn group_place(
    store: &Store<Copies>,
    leaf: NodeId,
    groups: &mut IndexSet<Copies>,
    known: &mut IndexMap<NodeId, u64>,
) -> Result<Option<u64>, AllocError>
    requires leaf { IsLeafAt store.now leaf }
    requires known { Remembers (λ x y. x == y) (IsNoted groups.old.keys store.now) known.old }
    ensures groups { OnOk result (groups.new.keys ≡ with_group groups.old.keys (group_copies (leaf_at [] store.now leaf))) }
    ensures place { IfOk result (λ p. IsPlace groups.new.keys (leaf_at [] store.now leaf) p) }
    ensures known { OnOk result (Remembers (λ x y. x == y) (IsNoted groups.new.keys store.now) known.new) }
{
    let copies = leaf_copies(store, leaf);
    if copies.len() < 2 {
        return Ok(None);
    }
    if let Some(place) = recall(known, leaf) {
        return Ok(Some(place));
    }
    let place = add_group(groups, copies)?;
    remember(known, leaf, place)?;
    Ok(Some(place))
}

/// The place of the group with the buckets of these copies.
fn add_group(groups: &mut IndexSet<Copies>, copies: &[Outgoing]) -> Result<u64, AllocError>
    ensures groups { OnOk result (groups.new.keys ≡ insert_key copies_eq groups.old.keys (map in_bucket copies.now)) }
    ensures place { IfOk result (λ p. slice_get groups.new.keys p ≡ Some (map in_bucket copies.now)) }
{
    let mut list = Vec::with_capacity(*groups.allocator(), copies.len())?;
    for copy in copies {
        list.push(in_bucket(copy))?;
    }
    match groups.insert_full(Copies::of(list)) {
        Ok((place, _)) => Ok(place as u64),
        Err(_) => Err(AllocError),
    }
}

/// The copy as its bucket shows it: the port that is written doesn't matter to one that goes to the controller.
fn in_bucket(copy: &Outgoing) -> Outgoing
    ensures { result ≡ in_bucket copy.now }
{
    match copy.kind {
        OutKind::Send => *copy,
        OutKind::CaptureOut => Outgoing {
            writes: Writes {
                port: None,
                ..copy.writes
            },
            ..*copy
        },
    }
}
