//! The departures of packets at a switch.
ghost use Rattle.std.specs.Prelude.{◌≡◌, ◌<◌, ◌==◌, ◌++◌, [], ◌∷◌, length, Some, slice_get, IfOk, OnOk};
ghost use Rattle.pq_fields.specs.declared.field.Field.TheVariants.{Port};
ghost use Rattle.pq_fields.specs.Order.{writes_eq};
ghost use Rattle.pq_store.specs.Store.{Keeps};
ghost use Rattle.pq_store.specs.Tree.Tree.{Tip};
ghost use Rattle.pq_apply.specs.Memo.{Remembers};
ghost use Rattle.pq_apply.specs.Product.{FitTogetherAt};
ghost use Rattle.pq_join.specs.Fronts.{StartsAt};
ghost use Rattle.pq_join.specs.Maps.{FitsAloneAt};
ghost use Rattle.pq_join.specs.Departing.{
  AppendsAt,
  DepartsAt,
  DepartsFromAt,
  departures_by,
};

use crate::choices::where_passed;
use crate::departure::{Departure, Departures};
use crate::maps::mapped;
use crate::overwriting::overwritten;
use crate::ports::PortKind;
use crate::sight::Seen;
use indexmap::IndexMap;
use pq_apply::{combine, recall, remember};
use pq_fields::Writes;
use pq_rewrite::WriteSet;
use pq_store::{NodeId, Store, View};
use std::alloc::{AllocError, Global};

/// The diagram of the departures of packets: those writes of a policy's diagram that take a packet to a port of the switch,
/// with what is seen of the packet written. Made once for each node. It recurs as deep as a path of the diagram.
pub(crate) fn departures(
    seen: &mut Store<Seen>,
    root: NodeId,
    forward: &Store<WriteSet>,
    node: NodeId,
    into: &mut Store<Departures>,
    tests: &mut Store<bool>,
    made: &mut IndexMap<Writes, NodeId>,
    done: &mut IndexMap<NodeId, NodeId>,
) -> Result<NodeId, AllocError>
    requires root { root < length seen.old }
    requires first { StartsAt Port seen.old root }
    requires node { node < length forward.now }
    requires fit { FitTogetherAt seen.old root forward.now node }
    requires made { Remembers writes_eq (λ key id. DepartsAt (Tip (key ∷ [])) seen.old root into.old id) made.old }
    requires done { Remembers (λ x y. x == y) (λ key id. DepartsFromAt forward.now key seen.old root into.old id) done.old }
    ensures departs { IfOk result (λ id. DepartsFromAt forward.now node seen.new root into.new id) }
    ensures made { OnOk result (Remembers writes_eq (λ key id. DepartsAt (Tip (key ∷ [])) seen.new root into.new id) made.new) }
    ensures done { OnOk result (Remembers (λ x y. x == y) (λ key id. DepartsFromAt forward.now key seen.new root into.new id) done.new) }
    ensures seen { Keeps seen.old seen.new }
    ensures keeps { Keeps into.old into.new }
{
    if let Some(id) = recall(done, &node) {
        return Ok(id);
    }
    match forward.view(node) {
        View::Leaf(set) => {
            let id = departures_of_each(seen, root, set.list(), into, made)?;
            remember(done, node, id)?;
            Ok(id)
        }
        View::Node(test, yes, no) => {
            let passed = departures(seen, root, forward, yes, into, tests, made, done)?;
            let failed = departures(seen, root, forward, no, into, tests, made, done)?;
            let id = where_passed(tests, test, into, passed, failed)?;
            remember(done, node, id)?;
            Ok(id)
        }
    }
}

/// The diagram of the departures by any of these writes, in their order. It recurs as deep as the list halves.
fn departures_of_each(
    seen: &mut Store<Seen>,
    root: NodeId,
    list: &[Writes],
    into: &mut Store<Departures>,
    made: &mut IndexMap<Writes, NodeId>,
) -> Result<NodeId, AllocError>
    requires root { root < length seen.old }
    requires first { StartsAt Port seen.old root }
    requires fit { FitsAloneAt seen.old root }
    requires made { Remembers writes_eq (λ key id. DepartsAt (Tip (key ∷ [])) seen.old root into.old id) made.old }
    ensures departs { IfOk result (λ id. DepartsAt (Tip list.now) seen.new root into.new id) }
    ensures made { OnOk result (Remembers writes_eq (λ key id. DepartsAt (Tip (key ∷ [])) seen.new root into.new id) made.new) }
    ensures seen { Keeps seen.old seen.new }
    ensures keeps { Keeps into.old into.new }
{
    match list {
        [] => {
            let id = nothing(into)?;
            Ok(id)
        }
        [writes] => {
            let id = departures_of_one(seen, root, writes, into, made)?;
            Ok(id)
        }
        _ => {
            let (front, back) = list.split_at(list.len() / 2);
            let x = departures_of_each(seen, root, front, into, made)?;
            let y = departures_of_each(seen, root, back, into, made)?;
            let id = appended(into, x, y)?;
            Ok(id)
        }
    }
}

/// The diagram of no departures.
fn nothing(into: &mut Store<Departures>) -> Result<NodeId, AllocError>
    ensures leaf { IfOk result (λ id. slice_get into.new id ≡ Some (Tip [])) }
    ensures keeps { Keeps into.old into.new }
{
    let list = Vec::new(into.allocator());
    let id = into.leaf(Departures { list })?;
    Ok(id)
}

/// The diagram with the departures of both diagrams, one after another.
fn appended(into: &mut Store<Departures>, x: NodeId, y: NodeId) -> Result<NodeId, AllocError>
    requires x { x < length into.old }
    requires y { y < length into.old }
    requires fit { FitTogetherAt into.old x into.old y }
    ensures appends { IfOk result (λ id. AppendsAt into.old x y into.new id) }
    ensures keeps { Keeps into.old into.new }
{
    let alloc = into.allocator();
    let join = |a: &Departures, b: &Departures| -> Result<Departures, AllocError>
        ensures { IfOk result (λ c. c ≡ a.now ++ b.now) }
    { both(alloc, a, b) };
    let id = combine(into, x, y, &join)?;
    Ok(id)
}

/// The departures of both lists, one after another.
fn both(alloc: Global, a: &Departures, b: &Departures) -> Result<Departures, AllocError>
    ensures { IfOk result (λ c. c ≡ a.now ++ b.now) }
{
    let mut list = Vec::with_capacity(alloc, a.list.len())?;
    list.extend_from_slice(&a.list)?;
    list.extend_from_slice(&b.list)?;
    Ok(Departures { list })
}

/// The diagram of the departure by these writes, made once for each.
fn departures_of_one(
    seen: &mut Store<Seen>,
    root: NodeId,
    writes: &Writes,
    into: &mut Store<Departures>,
    made: &mut IndexMap<Writes, NodeId>,
) -> Result<NodeId, AllocError>
    requires root { root < length seen.old }
    requires first { StartsAt Port seen.old root }
    requires fit { FitsAloneAt seen.old root }
    requires made { Remembers writes_eq (λ key id. DepartsAt (Tip (key ∷ [])) seen.old root into.old id) made.old }
    ensures departs { IfOk result (λ id. DepartsAt (Tip (writes.now ∷ [])) seen.new root into.new id) }
    ensures made { OnOk result (Remembers writes_eq (λ key id. DepartsAt (Tip (key ∷ [])) seen.new root into.new id) made.new) }
    ensures seen { Keeps seen.old seen.new }
    ensures keeps { Keeps into.old into.new }
{
    if let Some(id) = recall(made, writes) {
        return Ok(id);
    }
    let id = departing(seen, root, writes, into)?;
    remember(made, *writes, id)?;
    Ok(id)
}

/// The diagram of the departure by these writes: what is seen of the packet written, where its port is one of the switch.
fn departing(
    seen: &mut Store<Seen>,
    root: NodeId,
    writes: &Writes,
    into: &mut Store<Departures>,
) -> Result<NodeId, AllocError>
    requires root { root < length seen.old }
    requires first { StartsAt Port seen.old root }
    requires fit { FitsAloneAt seen.old root }
    ensures departs { IfOk result (λ id. DepartsAt (Tip (writes.now ∷ [])) seen.new root into.new id) }
    ensures seen { Keeps seen.old seen.new }
    ensures keeps { Keeps into.old into.new }
{
    let written = overwritten(seen, root, writes)?;
    let alloc = into.allocator();
    let join = |own: &Seen, _: &bool| -> Result<Departures, AllocError>
        ensures { IfOk result (λ c. c ≡ departures_by writes.entry.now own.now) }
    { departure_of(alloc, writes, own) };
    let id = mapped(seen, written, into, &join)?;
    Ok(id)
}

/// The departure by these writes, if the port is one of the switch.
fn departure_of(alloc: Global, writes: &Writes, seen: &Seen) -> Result<Departures, AllocError>
    ensures { IfOk result (λ c. c ≡ departures_by writes.now seen.now) }
{
    match seen.port {
        PortKind::Missing => Ok(Departures {
            list: Vec::new(alloc),
        }),
        _ => only(alloc, writes, seen),
    }
}

/// One departure.
pub(crate) fn only(alloc: Global, writes: &Writes, seen: &Seen) -> Result<Departures, AllocError>
    ensures { IfOk result (λ c. c ≡ record { writes = writes.now; seen = seen.now } ∷ []) }
{
    let departure = Departure {
        writes: *writes,
        seen: *seen,
    };
    let list = vec![in alloc; departure]?;
    Ok(Departures { list })
}
