//! The trees of the second table: the copies that leave.
ghost use Rattle.std.specs.Prelude.{◌≡◌, ◌<◌, ◌≤◌, ◌+◌, ◌++◌, length, IfOk, OnOk};
ghost use Rattle.pq_store.specs.Store.{Keeps};
ghost use Rattle.pq_join.specs.Leaving.{CopiesAt, LeavesAt, LeavesTo, copies_at, copies_by, sent_by};
ghost use Rattle.pq_join.specs.Maps.{FitsAloneAt};

use crate::departure::{Departure, Departures};
use crate::maps::mapped;
use crate::ports::PortKind;
use crate::tags::{captures, next_class, tag_of};
use pq_min::Classes;
use pq_rewrite::{Copies, OutKind, Outgoing};
use pq_store::{NodeId, Store};
use std::alloc::{AllocError, Global};

/// The trees for packets with the tag of each class of words of odd length.
pub(crate) fn leaving_trees(
    classes: &Classes,
    letters: u64,
    departures: &Store<Departures>,
    node: NodeId,
    second: &mut Store<Copies>,
) -> Result<Vec<(u16, NodeId)>, AllocError>
    requires letters { letters ≡ classes.now.letters }
    requires few { length classes.now.rows ≤ 4094 }
    requires node { node < length departures.now }
    requires fits { FitsAloneAt departures.now node }
    ensures leaves { IfOk result (λ trees. LeavesAt classes.now departures.now node second.new trees.items) }
    ensures keeps { Keeps second.old second.new }
{
    let mut trees = Vec::new(second.allocator());
    for class in 0..classes.count() {
        add_leaving(
            classes, letters, class, departures, node, second, &mut trees,
        )?;
    }
    Ok(trees)
}

/// Adds the tree for packets with the tag of the class, if its words have odd length.
fn add_leaving(
    classes: &Classes,
    letters: u64,
    class: u64,
    departures: &Store<Departures>,
    node: NodeId,
    second: &mut Store<Copies>,
    trees: &mut Vec<(u16, NodeId)>,
) -> Result<(), AllocError>
    requires letters { letters ≡ classes.now.letters }
    requires few { length classes.now.rows ≤ 4094 }
    requires class { class < length classes.now.rows }
    requires node { node < length departures.now }
    requires fits { FitsAloneAt departures.now node }
    requires before { LeavesTo classes.now class departures.now node second.old trees.old.items }
    ensures more { OnOk result (LeavesTo classes.now (class + 1) departures.now node second.new trees.new.items) }
    ensures keeps { Keeps second.old second.new }
{
    if classes.is_even(class) {
        return Ok(());
    }
    let id = copies_tree(classes, letters, class, departures, node, second)?;
    trees.push((tag_of(class), id))?;
    Ok(())
}

/// The tree of the copies of departures of packets of words of a class.
fn copies_tree(
    classes: &Classes,
    letters: u64,
    class: u64,
    departures: &Store<Departures>,
    node: NodeId,
    second: &mut Store<Copies>,
) -> Result<NodeId, AllocError>
    requires letters { letters ≡ classes.now.letters }
    requires few { length classes.now.rows ≤ 4094 }
    requires class { class < length classes.now.rows }
    requires node { node < length departures.now }
    requires fits { FitsAloneAt departures.now node }
    ensures copies { IfOk result (λ id. CopiesAt classes.now class departures.now node second.new id) }
    ensures keeps { Keeps second.old second.new }
{
    let alloc = second.allocator();
    let join = |own: &Departures, _: &bool| -> Result<Copies, AllocError>
        requires class { class < length classes.now.rows }
        requires few { length classes.now.rows ≤ 4094 }
        requires letters { letters ≡ classes.now.letters }
        ensures { IfOk result (λ c. c ≡ copies_at classes.entry.now class own.now) }
    { copies(alloc, classes, letters, class, &own.list) };
    let id = mapped(departures, node, second, &join)?;
    // Each id of the store has a diagram.
    second.has_diagrams();
    Ok(id)
}

/// The copies of departures, in their order.
fn copies(
    alloc: Global,
    classes: &Classes,
    letters: u64,
    class: u64,
    departures: &[Departure],
) -> Result<Copies, AllocError>
    requires letters { letters ≡ classes.now.letters }
    requires few { length classes.now.rows ≤ 4094 }
    requires class { class < length classes.now.rows }
    ensures { IfOk result (λ c. c ≡ copies_at classes.now class departures.now) }
{
    let mut list = Vec::with_capacity(alloc, departures.len())?;
    for departure in departures {
        add_copies(classes, letters, class, departure, &mut list)?;
    }
    Ok(Copies::of(list))
}

/// Adds the copies of one departure: the one that leaves, and then the one to the collector.
fn add_copies(
    classes: &Classes,
    letters: u64,
    class: u64,
    departure: &Departure,
    list: &mut Vec<Outgoing>,
) -> Result<(), AllocError>
    requires letters { letters ≡ classes.now.letters }
    requires few { length classes.now.rows ≤ 4094 }
    requires class { class < length classes.now.rows }
    ensures { OnOk result (list.new.items ≡ list.old.items ++ copies_by classes.now class departure.now) }
{
    let next = next_class(classes, letters, class, departure.seen.letter);
    let tag = tag_of(next);
    add_sent(departure, tag, list)?;
    if !captures(classes, next) {
        return Ok(());
    }
    list.push(Outgoing {
        writes: departure.writes,
        tag: Some(tag),
        kind: OutKind::CaptureOut,
    })?;
    Ok(())
}

/// Adds the copy that leaves: with the tag over a link, without one at the edge, and none of a packet that is dropped.
fn add_sent(departure: &Departure, tag: u16, list: &mut Vec<Outgoing>) -> Result<(), AllocError>
    ensures { OnOk result (list.new.items ≡ list.old.items ++ sent_by departure.now tag) }
{
    let carried = match departure.seen.port {
        PortKind::Missing => return Ok(()),
        PortKind::Edge => None,
        PortKind::Linked => Some(tag),
    };
    list.push(Outgoing {
        writes: departure.writes,
        tag: carried,
        kind: OutKind::Send,
    })?;
    Ok(())
}
