//! Diagrams one after another: what the second gives of the packets that the first gives.
ghost use Rattle.std.specs.Prelude.{◌≡◌, ◌<◌, ◌+◌, ◌==◌, [], length, Some, slice_get, IfOk, OnOk};
ghost use Rattle.pq_fields.specs.Writes.{AllFit};
ghost use Rattle.pq_store.specs.Tree.Tree.{Tip};
ghost use Rattle.pq_store.specs.Store.{HasAt, Keeps};
ghost use Rattle.pq_apply.specs.Memo.{Remembers};
ghost use Rattle.pq_rewrite.specs.Calls.{FitInSequenceAt, IsIdleFreeAt, SequencesAt};
ghost use Rattle.pq_rewrite.specs.Rewriting.{IsCanonicalRewriting};
ghost use Rattle.pq_rewrite.specs.Sequence.{
  FitAsFollowedAt,
  FitAsFollowedEachAt,
  FitAsSequenceAt,
  FitInTurn,
  FollowsEachAt,
  IsFollowedAt,
  IsInTurn,
  IsSequencedAt,
  once,
  same_move,
  twice,
};

use crate::canonical::equal_rewritings_are_one;
use crate::settled::{WRITABLE, settled_from};
use crate::unions::united;
use crate::write_set::WriteSet;
use crate::written::{Step, next_step, where_passed};
use indexmap::IndexMap;
use pq_apply::{recall, remember};
use pq_fields::Writes;
use pq_io::Steps;
use pq_store::{NodeId, Store, View};
use std::alloc::AllocError;
use std::sync::ledger::Ledger;

/// The diagram that gives what the second of two idle-free diagrams gives of the packets that the first gives. It counts one step.
///
/// There is room for the numbers that both test and write, and those in prerequisites of the fields that they write. The result
/// tests no others, and writes only what they write.
pub fn then<L: Ledger>(
    store: &mut Store<WriteSet>,
    x: NodeId,
    y: NodeId,
    steps: &mut Steps<L>,
) -> Result<NodeId, AllocError>
    requires x { x < length store.old }
    requires y { y < length store.old }
    requires x_idle_free { IsIdleFreeAt store.old x }
    requires y_idle_free { IsIdleFreeAt store.old y }
    requires fit { FitInSequenceAt store.old x y }
    ensures sequences { IfOk result (λ id. SequencesAt store.old x y store.new id) }
    ensures keeps { Keeps store.old store.new }
    ensures canonical { IfOk result (λ id. IsCanonicalRewriting store.new) }
    ensures step { steps.new ≡ steps.old + 1 }
{
    steps.tick();
    // It shows that trees are diagrams, so that each of their leaves is reached by a packet.
    let _ = store.view(x);
    let alloc = store.allocator();
    let mut tests = Store::new(alloc);
    let mut moved = IndexMap::new(alloc);
    let mut done = IndexMap::new(alloc);
    let id = sequenced(store, &mut tests, x, y, &mut moved, &mut done)?;
    equal_rewritings_are_one(store, id);
    Ok(id)
}

/// The diagram of a node and then the second, made once for each node. It recurs as deep as a path of the diagram.
fn sequenced(
    store: &mut Store<WriteSet>,
    tests: &mut Store<bool>,
    node: NodeId,
    second: NodeId,
    moved: &mut IndexMap<(Writes, NodeId), NodeId>,
    done: &mut IndexMap<NodeId, NodeId>,
) -> Result<NodeId, AllocError>
    requires node { node < length store.old }
    requires second { second < length store.old }
    requires fit { FitAsSequenceAt store.old node second }
    requires moved { Remembers same_move (λ key id. IsFollowedAt key.0 store.old key.1 id) moved.old }
    requires done { Remembers (λ x y. x == y) (λ key id. IsSequencedAt store.old key second id) done.old }
    ensures sequenced { IfOk result (λ id. IsSequencedAt store.new node second id) }
    ensures moved { OnOk result (Remembers same_move (λ key id. IsFollowedAt key.0 store.new key.1 id) moved.new) }
    ensures done { OnOk result (Remembers (λ x y. x == y) (λ key id. IsSequencedAt store.new key second id) done.new) }
    ensures keeps { Keeps store.old store.new }
{
    if let Some(id) = recall(done, &node) {
        return Ok(id);
    }
    match store.view(node) {
        View::Leaf(set) => {
            let first = Vec::from_slice(store.allocator(), set.list())?;
            let id = followed_by_each(store, tests, &first, second, moved)?;
            remember(done, node, id)?;
            Ok(id)
        }
        View::Node(test, yes, no) => {
            let passed = sequenced(store, tests, yes, second, moved, done)?;
            let failed = sequenced(store, tests, no, second, moved, done)?;
            let id = where_passed(tests, &Writes::none(), test, store, passed, failed)?;
            remember(done, node, id)?;
            Ok(id)
        }
    }
}

/// The diagram that gives what the node gives of the packet written by any of these, where each changes the packet.
/// It recurs as deep as the list halves.
fn followed_by_each(
    store: &mut Store<WriteSet>,
    tests: &mut Store<bool>,
    first: &[Writes],
    node: NodeId,
    moved: &mut IndexMap<(Writes, NodeId), NodeId>,
) -> Result<NodeId, AllocError>
    requires node { node < length store.old }
    requires fit { FitAsFollowedEachAt first.now store.old node }
    requires moved { Remembers same_move (λ key id. IsFollowedAt key.0 store.old key.1 id) moved.old }
    ensures follows { IfOk result (λ id. FollowsEachAt first.now store.old node store.new id) }
    ensures moved { OnOk result (Remembers same_move (λ key id. IsFollowedAt key.0 store.new key.1 id) moved.new) }
    ensures keeps { Keeps store.old store.new }
{
    match first {
        [] => {
            let id = nothing(store)?;
            Ok(id)
        }
        [writes] => {
            let id = followed(store, tests, writes, node, moved)?;
            Ok(id)
        }
        _ => {
            let (front, back) = first.split_at(first.len() / 2);
            let x = followed_by_each(store, tests, front, node, moved)?;
            let y = followed_by_each(store, tests, back, node, moved)?;
            let id = united(store, x, y)?;
            Ok(id)
        }
    }
}

/// The diagram that gives what the node gives of the packet written, where that changes it; made once for each writes and node.
/// It recurs as deep as a path of the diagram.
fn followed(
    store: &mut Store<WriteSet>,
    tests: &mut Store<bool>,
    by: &Writes,
    node: NodeId,
    moved: &mut IndexMap<(Writes, NodeId), NodeId>,
) -> Result<NodeId, AllocError>
    requires node { node < length store.old }
    requires fit { FitAsFollowedAt by.now store.old node }
    requires moved { Remembers same_move (λ key id. IsFollowedAt key.0 store.old key.1 id) moved.old }
    ensures followed { IfOk result (λ id. IsFollowedAt by.now store.new node id) }
    ensures moved { OnOk result (Remembers same_move (λ key id. IsFollowedAt key.0 store.new key.1 id) moved.new) }
    ensures keeps { Keeps store.old store.new }
{
    if *by == Writes::none() {
        return Ok(node);
    }
    if let Some(id) = recall(moved, &(*by, node)) {
        return Ok(id);
    }
    match next_step(by, store, node) {
        Step::Leaf(set) => {
            let second = Vec::from_slice(store.allocator(), set.list())?;
            let id = written_in_turn(store, tests, by, &second)?;
            remember(moved, (*by, node), id)?;
            Ok(id)
        }
        Step::Side(side) => {
            let id = followed(store, tests, by, side, moved)?;
            remember(moved, (*by, node), id)?;
            Ok(id)
        }
        Step::Both(test, yes, no) => {
            let passed = followed(store, tests, by, yes, moved)?;
            let failed = followed(store, tests, by, no, moved)?;
            let id = where_passed(tests, by, test, store, passed, failed)?;
            remember(moved, (*by, node), id)?;
            Ok(id)
        }
    }
}

/// The diagram that gives the packet written by the first and then by any of the others, where each changes it.
/// It recurs as deep as the list halves.
fn written_in_turn(
    store: &mut Store<WriteSet>,
    tests: &mut Store<bool>,
    first: &Writes,
    second: &[Writes],
) -> Result<NodeId, AllocError>
    requires fit { FitInTurn second.now }
    ensures in_turn { IfOk result (λ id. HasAt (IsInTurn first.now second.now) store.new id) }
    ensures keeps { Keeps store.old store.new }
{
    match second {
        [] => {
            let id = nothing(store)?;
            Ok(id)
        }
        [writes] => {
            let (once, twice) = (once(first, writes), twice(first, writes));
            let id = settled_from(store, tests, &twice, &WRITABLE, once)?;
            Ok(id)
        }
        _ => {
            let (front, back) = second.split_at(second.len() / 2);
            let x = written_in_turn(store, tests, first, front)?;
            let y = written_in_turn(store, tests, first, back)?;
            let id = united(store, x, y)?;
            Ok(id)
        }
    }
}

/// The leaf without writes: it gives no packet.
fn nothing(store: &mut Store<WriteSet>) -> Result<NodeId, AllocError>
    ensures leaf { IfOk result (λ id. slice_get store.new id ≡ Some (Tip [])) }
    ensures keeps { Keeps store.old store.new }
{
    let id = store.leaf(WriteSet::of(Vec::new(store.allocator())))?;
    Ok(id)
}

/// The numbers of one of the two alone, in fields that the other doesn't write.
fn once(first: &Writes, second: &Writes) -> Writes
    ensures once { result ≡ once first.now second.now }
    ensures fit { AllFit first.now × AllFit second.now }
{
    Writes {
        port: first.port.xor(second.port),
        eth_src: first.eth_src.xor(second.eth_src),
        eth_dst: first.eth_dst.xor(second.eth_dst),
        ipv4_src: first.ipv4_src.xor(second.ipv4_src),
        ipv4_dst: first.ipv4_dst.xor(second.ipv4_dst),
        tcp_src: first.tcp_src.xor(second.tcp_src),
        tcp_dst: first.tcp_dst.xor(second.tcp_dst),
        udp_src: first.udp_src.xor(second.udp_src),
        udp_dst: first.udp_dst.xor(second.udp_dst),
    }
}

/// The numbers of the second in fields that both write: the packet may have had them before the first.
fn twice(first: &Writes, second: &Writes) -> Writes
    ensures { result ≡ twice first.now second.now }
{
    Writes {
        port: first.port.and(second.port),
        eth_src: first.eth_src.and(second.eth_src),
        eth_dst: first.eth_dst.and(second.eth_dst),
        ipv4_src: first.ipv4_src.and(second.ipv4_src),
        ipv4_dst: first.ipv4_dst.and(second.ipv4_dst),
        tcp_src: first.tcp_src.and(second.tcp_src),
        tcp_dst: first.tcp_dst.and(second.tcp_dst),
        udp_src: first.udp_src.and(second.udp_src),
        udp_dst: first.udp_dst.and(second.udp_dst),
    }
}
