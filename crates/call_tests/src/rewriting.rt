//! Diagrams that write, and diagrams on packets that are written first, worked out by hand.
ghost use Rattle.std.specs.Prelude.{◌≡◌, ◌<◌, ◌^◌, ◌==◌, false, true, IfOk};
ghost use Rattle.std.specs.List.{list_any};
ghost use Rattle.pq_fields.specs.Packet.{width_of};
ghost use Rattle.pq_fields.specs.Writes.{is_writable};
ghost use Rattle.pq_apply.specs.Examples.{IsExampleAt, example_numbers};
ghost use Rattle.pq_rewrite.specs.Examples.{IsExampleRewritingAt, KeepsExamples};

use pq_apply::pred_node;
use pq_fields::{Field, Packet, Pred, Writes};
use pq_io::Steps;
use pq_rewrite::*;
use pq_store::{NodeId, Store};
use std::alloc::AllocError;
use std::marker::Brand;
use std::sync::ledger::{Blank, Ledger};
use std::test::Fail;

/// The diagram of the packets that have the field with this number.
fn equal(store: &mut Store<bool>, field: Field, value: u64) -> Result<NodeId, AllocError>
    requires fits { value < 2 ^ width_of field }
    requires known { list_any (λ n. value == n) example_numbers ≡ true }
    ensures { IfOk result (λ id. IsExampleAt store.new id) }
{
    let id = pred_node(store, &Pred::Equal(field, value))?;
    Ok(id)
}

/// The diagram on packets that have this number written into the field first.
fn after_writing(
    field: Field,
    value: u64,
    from: &Store<bool>,
    node: NodeId,
    into: &mut Store<bool>,
) -> Result<NodeId, AllocError>
    requires writable { is_writable field ≡ true }
    requires fits { value < 2 ^ width_of field }
    requires example { IsExampleAt from.now node }
{
    let writes = Writes::none().set(field, value);
    let id = after(&writes, from, node, into)?;
    Ok(id)
}

#[test]
fn a_number_is_written_only_where_the_field_is(rt: HostRuntime) -> Result<(), Fail> {
    let mut from = Store::new(rt.alloc());
    let node = equal(&mut from, Field::TcpDst, 80)?;
    let mut into = Store::new(rt.alloc());
    let id = after_writing(Field::TcpDst, 80, &from, node, &mut into)?;
    assert!(rt; id == equal(&mut into, Field::IpProto, 6)?);
    Ok(())
}

/// The diagram that writes this number into the field.
fn writing(store: &mut Store<WriteSet>, field: Field, value: u64) -> Result<NodeId, AllocError>
    requires writable { is_writable field ≡ true }
    requires fits { value < 2 ^ width_of field }
    requires known { list_any (λ n. value == n) example_numbers ≡ true }
    ensures example { IfOk result (λ id. IsExampleRewritingAt store.new id) }
    ensures keeps { KeepsExamples store.old store.new }
{
    let id = write(store, field, value)?;
    Ok(id)
}

/// The diagram that keeps the packets of which the condition holds.
fn keeping(
    tests: &Store<bool>,
    cond: NodeId,
    store: &mut Store<WriteSet>,
) -> Result<NodeId, AllocError>
    requires { IsExampleAt tests.now cond }
    ensures example { IfOk result (λ id. IsExampleRewritingAt store.new id) }
    ensures keeps { KeepsExamples store.old store.new }
{
    let id = keep(tests, cond, store)?;
    Ok(id)
}

/// The diagram that keeps the packets that have the field with this number.
fn keeping_equal(
    store: &mut Store<WriteSet>,
    field: Field,
    value: u64,
) -> Result<NodeId, AllocError>
    requires fits { value < 2 ^ width_of field }
    requires known { list_any (λ n. value == n) example_numbers ≡ true }
    ensures example { IfOk result (λ id. IsExampleRewritingAt store.new id) }
    ensures keeps { KeepsExamples store.old store.new }
{
    let mut tests = Store::new(store.allocator());
    let cond = equal(&mut tests, field, value)?;
    let id = keeping(&tests, cond, store)?;
    Ok(id)
}

/// The union of two diagrams, with a counter of its own.
fn counted_union<L: Ledger>(
    blank: Blank,
    store: &mut Store<WriteSet>,
    x: NodeId,
    y: NodeId,
) -> Result<NodeId, AllocError>
    requires name { blank.name ≡ L.name }
    requires parts { blank.parts ≡ L.parts }
    requires some { 0 < blank.parts }
    requires first { IsExampleRewritingAt store.old x }
    requires second { IsExampleRewritingAt store.old y }
    ensures example { IfOk result (λ id. IsExampleRewritingAt store.new id) }
    ensures keeps { KeepsExamples store.old store.new }
{
    let (book, share) = blank.open();
    let mut steps: Steps<L> = Steps::start(book, share);
    let id = union(store, x, y, &mut steps)?;
    Ok(id)
}

/// The diagram that gives what one or the other gives.
fn either(store: &mut Store<WriteSet>, x: NodeId, y: NodeId) -> Result<NodeId, AllocError>
    requires first { IsExampleRewritingAt store.old x }
    requires second { IsExampleRewritingAt store.old y }
    ensures example { IfOk result (λ id. IsExampleRewritingAt store.new id) }
    ensures keeps { KeepsExamples store.old store.new }
{
    counted_union::<Brand>(Blank::new(1), store, x, y)
}

/// The sequence of two diagrams, with a counter of its own.
fn counted_sequence<L: Ledger>(
    blank: Blank,
    store: &mut Store<WriteSet>,
    x: NodeId,
    y: NodeId,
) -> Result<NodeId, AllocError>
    requires name { blank.name ≡ L.name }
    requires parts { blank.parts ≡ L.parts }
    requires some { 0 < blank.parts }
    requires first { IsExampleRewritingAt store.old x }
    requires second { IsExampleRewritingAt store.old y }
    ensures example { IfOk result (λ id. IsExampleRewritingAt store.new id) }
    ensures keeps { KeepsExamples store.old store.new }
{
    let (book, share) = blank.open();
    let mut steps: Steps<L> = Steps::start(book, share);
    let id = then(store, x, y, &mut steps)?;
    Ok(id)
}

/// The diagram that gives what the second gives of the packets that the first gives.
fn in_sequence(store: &mut Store<WriteSet>, x: NodeId, y: NodeId) -> Result<NodeId, AllocError>
    requires first { IsExampleRewritingAt store.old x }
    requires second { IsExampleRewritingAt store.old y }
    ensures example { IfOk result (λ id. IsExampleRewritingAt store.new id) }
    ensures keeps { KeepsExamples store.old store.new }
{
    counted_sequence::<Brand>(Blank::new(1), store, x, y)
}

/// The writes of a diagram on a packet.
fn writes_on<'a>(store: &'a Store<WriteSet>, node: NodeId, x: &Packet) -> &'a [Writes]
    requires { IsExampleRewritingAt store.now node }
{
    store.eval(node, x).list()
}

#[test]
fn the_later_write_stays(rt: HostRuntime) -> Result<(), Fail> {
    let mut store = Store::new(rt.alloc());
    let first = writing(&mut store, Field::EthDst, 1)?;
    let second = writing(&mut store, Field::EthDst, 2)?;
    assert!(rt; in_sequence(&mut store, first, second)? == second);
    assert!(rt; first != second);
    Ok(())
}

#[test]
fn a_write_of_what_a_packet_has_is_none(rt: HostRuntime) -> Result<(), Fail> {
    let mut store = Store::new(rt.alloc());
    let at_port = keeping_equal(&mut store, Field::Port, 1)?;
    let to_port = writing(&mut store, Field::Port, 1)?;
    assert!(rt; in_sequence(&mut store, at_port, to_port)? == at_port);
    Ok(())
}

#[test]
fn a_number_is_written_only_where_it_changes_a_packet(rt: HostRuntime) -> Result<(), Fail> {
    let mut store = Store::new(rt.alloc());
    let node = writing(&mut store, Field::TcpDst, 80)?;
    let over_ipv4 = Packet::zero().with(Field::EthType, 0x0800);
    let over_tcp = over_ipv4.with(Field::IpProto, 6);
    let to_web = over_tcp.with(Field::TcpDst, 80);
    let over_udp = over_ipv4.with(Field::IpProto, 17);
    let written = writes_on(&store, node, &over_tcp.with(Field::TcpDst, 22));
    assert_eq!(rt; written.len(), 1);
    assert!(rt; written[0].on(&over_tcp.with(Field::TcpDst, 22)) == to_web);
    assert!(rt; writes_on(&store, node, &to_web) == [Writes::none()].as_slice());
    assert!(rt; writes_on(&store, node, &over_udp) == [Writes::none()].as_slice());
    Ok(())
}

#[test]
fn writes_of_a_union_ascend(rt: HostRuntime) -> Result<(), Fail> {
    let mut store = Store::new(rt.alloc());
    let to_second = writing(&mut store, Field::Port, 2)?;
    let to_first = writing(&mut store, Field::Port, 1)?;
    let node = either(&mut store, to_second, to_first)?;
    let none = Writes::none();
    let first = none.set(Field::Port, 1);
    let second = none.set(Field::Port, 2);
    let at_first = Packet::zero().with(Field::Port, 1);
    let at_third = Packet::zero().with(Field::Port, 3);
    assert!(rt; writes_on(&store, node, &at_first) == [none, second].as_slice());
    assert!(rt; writes_on(&store, node, &at_third) == [first, second].as_slice());
    Ok(())
}

#[test]
fn sets_of_writes_are_compacted(rt: HostRuntime) -> Result<(), Fail> {
    let alloc = rt.alloc();
    let mut store = Store::new(alloc);
    let _nothing = store.leaf(WriteSet::of(Vec::new(alloc)))?;
    let node = writing(&mut store, Field::Port, 1)?;
    let (compact, _ids) = store.compacted([node].as_slice())?;
    assert_eq!(rt; store.count(), 4);
    assert_eq!(rt; compact.count(), 3);
    Ok(())
}

#[test]
fn copies_come_after_writes(rt: HostRuntime) -> Result<(), Fail> {
    let alloc = rt.alloc();
    let sent = Outgoing {
        writes: Writes::none(),
        tag: None,
        kind: OutKind::Send,
    };
    let mut from = Store::new(alloc);
    let leaf = from.leaf(Copies::of(vec![in alloc; sent]?))?;
    let mut into = Store::new(alloc);
    let id = after(&Writes::none(), &from, leaf, &mut into)?;
    assert!(rt; into.leaf(Copies::of(vec![in alloc; sent]?))? == id);
    Ok(())
}

#[test]
fn equal_copies_have_one_id(rt: HostRuntime) -> Result<(), Fail> {
    let alloc = rt.alloc();
    let mut store = Store::new(alloc);
    let plain = Outgoing {
        writes: Writes::none().set(Field::Port, 1),
        tag: None,
        kind: OutKind::Send,
    };
    let tagged = Outgoing {
        tag: Some(1),
        ..plain
    };
    let id = store.leaf(Copies::of(vec![in alloc; plain, tagged]?))?;
    assert!(rt; store.leaf(Copies::of(vec![in alloc; plain, tagged]?))? == id);
    assert!(rt; store.leaf(Copies::of(vec![in alloc; tagged, plain]?))? != id);
    Ok(())
}

#[test]
fn equal_arrivals_have_one_id(rt: HostRuntime) -> Result<(), Fail> {
    let mut store = Store::new(rt.alloc());
    let plain = Arrive {
        tag: 1,
        capture: false,
    };
    let captured = Arrive {
        capture: true,
        ..plain
    };
    let id = store.leaf(Some(plain))?;
    assert!(rt; store.leaf(Some(plain))? == id);
    assert!(rt; store.leaf(Some(captured))? != id);
    assert!(rt; store.leaf(None)? != id);
    Ok(())
}
