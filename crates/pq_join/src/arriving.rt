//! The trees of the first table: what is made of packets that arrive.
ghost use Rattle.std.specs.Prelude.{◌≡◌, ◌<◌, ◌≤◌, ◌+◌, Ok, false, length, IfOk, OnOk};
ghost use Rattle.pq_store.specs.Store.{Keeps};
ghost use Rattle.pq_join.specs.Arriving.{ArrivesAt, ArrivesByAt, ArrivesTo, arrival_by, comes_in};
ghost use Rattle.pq_join.specs.Maps.{FitsAloneAt};

use crate::maps::mapped;
use crate::ports::PortKind;
use crate::sight::Seen;
use crate::tags::{captures, next_class, tag_of};
use pq_min::Classes;
use pq_rewrite::{Arrive, Key};
use pq_store::{NodeId, Store};
use std::alloc::AllocError;

/// The trees for packets without a tag, and for those with the tag of each class of words of even length.
pub(crate) fn arriving_trees(
    classes: &Classes,
    letters: u64,
    seen: &Store<Seen>,
    root: NodeId,
    first: &mut Store<Option<Arrive>>,
) -> Result<Vec<(Key, NodeId)>, AllocError>
    requires letters { letters ≡ classes.now.letters }
    requires few { length classes.now.rows ≤ 4094 }
    requires root { root < length seen.now }
    requires fits { FitsAloneAt seen.now root }
    ensures arrives { IfOk result (λ trees. ArrivesAt classes.now seen.now root first.new trees.items) }
    ensures keeps { Keeps first.old first.new }
{
    // There is a class 0, that of the empty word.
    classes.is_lawful();
    let plain = arrival_tree(classes, letters, 0, false, seen, root, first)?;
    let mut trees = vec![in first.allocator(); (Key::Plain, plain)]?;
    for class in 0..classes.count() {
        add_arriving(classes, letters, class, seen, root, first, &mut trees)?;
    }
    Ok(trees)
}

/// Adds the tree for packets with the tag of the class, if its words have even length.
fn add_arriving(
    classes: &Classes,
    letters: u64,
    class: u64,
    seen: &Store<Seen>,
    root: NodeId,
    first: &mut Store<Option<Arrive>>,
    trees: &mut Vec<(Key, NodeId)>,
) -> Result<(), AllocError>
    requires letters { letters ≡ classes.now.letters }
    requires few { length classes.now.rows ≤ 4094 }
    requires class { class < length classes.now.rows }
    requires root { root < length seen.now }
    requires fits { FitsAloneAt seen.now root }
    requires before { ArrivesTo classes.now class seen.now root first.old trees.old.items }
    ensures more { OnOk result (ArrivesTo classes.now (class + 1) seen.now root first.new trees.new.items) }
    ensures keeps { Keeps first.old first.new }
{
    if !classes.is_even(class) {
        return Ok(());
    }
    let id = arrival_tree(classes, letters, class, true, seen, root, first)?;
    trees.push((Key::Tag(tag_of(class)), id))?;
    Ok(())
}

/// The tree for packets of words of a class that come in over a link, or at the edge.
fn arrival_tree(
    classes: &Classes,
    letters: u64,
    class: u64,
    over_link: bool,
    seen: &Store<Seen>,
    root: NodeId,
    first: &mut Store<Option<Arrive>>,
) -> Result<NodeId, AllocError>
    requires letters { letters ≡ classes.now.letters }
    requires few { length classes.now.rows ≤ 4094 }
    requires class { class < length classes.now.rows }
    requires root { root < length seen.now }
    requires fits { FitsAloneAt seen.now root }
    ensures arrives { IfOk result (λ id. ArrivesByAt classes.now class over_link seen.now root first.new id) }
    ensures keeps { Keeps first.old first.new }
{
    let join = |own: &Seen, _: &bool| -> Result<Option<Arrive>, AllocError>
        requires class { class < length classes.now.rows }
        requires few { length classes.now.rows ≤ 4094 }
        requires letters { letters ≡ classes.now.letters }
        ensures { result ≡ Ok (arrival_by classes.entry.now class over_link own.now) }
    { Ok(arrival(classes, letters, class, over_link, own)) };
    let id = mapped(seen, root, first, &join)?;
    // Each id of the store has a diagram.
    first.has_diagrams();
    Ok(id)
}

/// What is made of a packet that comes in; nothing where it doesn't come in so.
fn arrival(
    classes: &Classes,
    letters: u64,
    class: u64,
    over_link: bool,
    seen: &Seen,
) -> Option<Arrive>
    requires letters { letters ≡ classes.now.letters }
    requires few { length classes.now.rows ≤ 4094 }
    requires class { class < length classes.now.rows }
    ensures { result ≡ arrival_by classes.now class over_link seen.now }
{
    if !comes_in(seen.port, over_link) {
        return None;
    }
    let next = next_class(classes, letters, class, seen.letter);
    Some(Arrive {
        tag: tag_of(next),
        capture: captures(classes, next),
    })
}

/// Whether a packet at such a port comes in over a link, or else at the edge.
fn comes_in(port: PortKind, over_link: bool) -> bool
    ensures { result ≡ comes_in port over_link }
{
    match port {
        PortKind::Missing => false,
        PortKind::Edge => !over_link,
        PortKind::Linked => over_link,
    }
}
