//! Diagrams of a few predicates, worked out by hand.
ghost use Rattle.std.specs.Prelude.{◌≡◌, ◌<◌, ◌≤◌, ◌^◌, ◌==◌, ◌&&◌, true, Ok, IfOk, length};
ghost use Rattle.std.specs.List.{list_any};
ghost use Rattle.pq_fields.specs.Packet.{width_of};
ghost use Rattle.pq_fields.specs.Pred.{pred_tree};
ghost use Rattle.pq_store.specs.Store.{Keeps};
ghost use Rattle.pq_apply.specs.Examples.{IsExample, IsExampleAt, example_numbers};

use pq_apply::*;
use pq_fields::{Field, Packet, Pred};
use pq_store::{NodeId, Store};
use std::alloc::{AllocError, Global};
use std::test::Fail;

/// The field's number is this one.
fn equal(field: Field, value: u64) -> Pred
    requires fits { value < 2 ^ width_of field }
    requires known { list_any (λ n. value == n) example_numbers ≡ true }
    ensures { IsExample (pred_tree result) }
{
    Pred::Equal(field, value)
}

/// The destination begins like this address.
fn to_net(address: u32, len: u8) -> Pred
    requires { len ≤ 32 }
    ensures { IsExample (pred_tree result) }
{
    Pred::Prefix(Field::Ipv4Dst, address, len)
}

/// The predicate doesn't hold.
fn negated(alloc: Global, pred: Pred) -> Result<Pred, AllocError>
    requires { IsExample (pred_tree pred) }
    ensures { IfOk result (λ p. IsExample (pred_tree p)) }
{
    let inner = Box::new(alloc, pred)?;
    Ok(Pred::Not(inner))
}

/// Both predicates hold.
fn both(alloc: Global, first: Pred, second: Pred) -> Result<Pred, AllocError>
    requires first { IsExample (pred_tree first) }
    requires second { IsExample (pred_tree second) }
    ensures { IfOk result (λ p. IsExample (pred_tree p)) }
{
    let preds = vec![in alloc; first, second]?;
    Ok(Pred::And(preds))
}

/// One of the predicates holds.
fn either(alloc: Global, first: Pred, second: Pred) -> Result<Pred, AllocError>
    requires first { IsExample (pred_tree first) }
    requires second { IsExample (pred_tree second) }
    ensures { IfOk result (λ p. IsExample (pred_tree p)) }
{
    let preds = vec![in alloc; first, second]?;
    Ok(Pred::Or(preds))
}

/// The node of a predicate.
fn node_of(store: &mut Store<bool>, pred: &Pred) -> Result<NodeId, AllocError>
    requires { IsExample (pred_tree pred.now) }
    ensures example { IfOk result (λ id. IsExampleAt store.new id) }
    ensures within { IfOk result (λ id. id < length store.new) }
    ensures keeps { Keeps store.old store.new }
{
    let id = pred_node(store, pred)?;
    Ok(id)
}

/// Whether the predicates have one node in a store.
fn share_a_node(alloc: Global, left: &Pred, right: &Pred) -> Result<bool, AllocError>
    requires left { IsExample (pred_tree left.now) }
    requires right { IsExample (pred_tree right.now) }
{
    let mut store = Store::new(alloc);
    let x = node_of(&mut store, left)?;
    let y = node_of(&mut store, right)?;
    Ok(x == y)
}

#[test]
fn a_test_or_its_negation_holds_everywhere(rt: HostRuntime) -> Result<(), Fail> {
    let alloc = rt.alloc();
    let elsewhere = negated(alloc, equal(Field::Port, 1))?;
    let any = either(alloc, equal(Field::Port, 1), elsewhere)?;
    assert!(rt; share_a_node(alloc, &any, &Pred::True)?);
    Ok(())
}

/// The packets over IPv4 to the web.
fn to_web_over_ipv4(alloc: Global) -> Result<Pred, AllocError>
    ensures { IfOk result (λ p. IsExample (pred_tree p)) }
{
    let over_ipv4 = equal(Field::EthType, 0x0800);
    let over_tcp = equal(Field::IpProto, 6);
    let to_web = equal(Field::TcpDst, 80);
    let preds = vec![in alloc; over_ipv4, over_tcp, to_web]?;
    Ok(Pred::And(preds))
}

#[test]
fn tcp_ports_are_there_over_ipv6_too(rt: HostRuntime) -> Result<(), Fail> {
    let alloc = rt.alloc();
    let port = equal(Field::TcpDst, 80);
    assert!(rt; !share_a_node(alloc, &port, &to_web_over_ipv4(alloc)?)?);
    Ok(())
}

#[test]
fn a_longer_prefix_is_within_a_shorter_one(rt: HostRuntime) -> Result<(), Fail> {
    let alloc = rt.alloc();
    let nets = both(alloc, to_net(0x0a00_0000, 8), to_net(0x0a00_0000, 9))?;
    assert!(rt; share_a_node(alloc, &nets, &to_net(0x0a00_0000, 9))?);
    Ok(())
}

#[test]
fn packets_without_a_field_meet_the_negation_of_its_test(rt: HostRuntime) -> Result<(), Fail> {
    let alloc = rt.alloc();
    let other_port = negated(alloc, equal(Field::TcpDst, 80))?;
    let again = negated(alloc, equal(Field::TcpDst, 80))?;
    let tcp_to_other_port = both(alloc, equal(Field::IpProto, 6), again)?;
    assert!(rt; !share_a_node(alloc, &other_port, &tcp_to_other_port)?);
    Ok(())
}

/// The choice of `true` where the condition holds, and of `false` elsewhere.
fn choice(
    tests: &Store<bool>,
    condition: NodeId,
    store: &mut Store<bool>,
) -> Result<NodeId, AllocError>
    requires { IsExampleAt tests.now condition }
{
    let yes = store.leaf(true)?;
    let no = store.leaf(false)?;
    let id = ite(tests, condition, store, yes, no)?;
    Ok(id)
}

#[test]
fn a_choice_of_true_and_false_is_its_condition(rt: HostRuntime) -> Result<(), Fail> {
    let alloc = rt.alloc();
    let port = equal(Field::Port, 1);
    let mut tests = Store::new(alloc);
    let condition = node_of(&mut tests, &port)?;
    let mut store = Store::new(alloc);
    let id = choice(&tests, condition, &mut store)?;
    assert!(rt; id == node_of(&mut store, &port)?);
    Ok(())
}

/// Where the node holds, and itself too.
fn with_itself(
    from: &Store<bool>,
    node: NodeId,
    into: &mut Store<bool>,
) -> Result<NodeId, AllocError>
    requires { IsExampleAt from.now node }
{
    let and = |a: &bool, b: &bool| -> Result<bool, AllocError>
        ensures { result ≡ Ok (a.now && b.now) }
    { Ok(*a && *b) };
    let id = product(from, node, from, node, into, &and)?;
    Ok(id)
}

#[test]
fn a_predicate_and_itself_are_one(rt: HostRuntime) -> Result<(), Fail> {
    let alloc = rt.alloc();
    let port = equal(Field::Port, 1);
    let mut from = Store::new(alloc);
    let node = node_of(&mut from, &port)?;
    let mut into = Store::new(alloc);
    let id = with_itself(&from, node, &mut into)?;
    assert!(rt; id == node_of(&mut into, &port)?);
    Ok(())
}

/// Where both predicates hold, by combining their nodes.
fn combined(store: &mut Store<bool>, left: &Pred, right: &Pred) -> Result<NodeId, AllocError>
    requires left { IsExample (pred_tree left.now) }
    requires right { IsExample (pred_tree right.now) }
{
    let and = |a: &bool, b: &bool| -> Result<bool, AllocError>
        ensures { result ≡ Ok (a.now && b.now) }
    { Ok(*a && *b) };
    let x = node_of(store, left)?;
    let y = node_of(store, right)?;
    let id = combine(store, x, y, &and)?;
    Ok(id)
}

#[test]
fn two_predicates_combined_by_and_are_their_conjunction(rt: HostRuntime) -> Result<(), Fail> {
    let alloc = rt.alloc();
    let (port, to_web) = (equal(Field::Port, 1), equal(Field::TcpDst, 80));
    let mut store = Store::new(alloc);
    let id = combined(&mut store, &port, &to_web)?;
    let conjunction = both(alloc, port, to_web)?;
    assert!(rt; id == node_of(&mut store, &conjunction)?);
    Ok(())
}

#[test]
fn a_number_that_is_set_is_not_tested(rt: HostRuntime) -> Result<(), Fail> {
    let mut store = Store::new(rt.alloc());
    let node = node_of(&mut store, &equal(Field::Port, 1))?;
    let id = restrict(&mut store, node, Field::Port, 1)?;
    assert!(rt; id == store.leaf(true)?);
    Ok(())
}

#[test]
fn the_least_packet_has_zeros_but_where_it_must_not(rt: HostRuntime) -> Result<(), Fail> {
    let mut store = Store::new(rt.alloc());
    let node = node_of(&mut store, &equal(Field::Port, 1))?;
    let found = store.least(node)?;
    assert_eq!(rt; found.len(), 2);
    assert!(rt; found[0].packet == Packet::zero());
    assert!(rt; found[0].leaf == store.leaf(false)?);
    assert!(rt; found[1].packet == Packet::zero().with(Field::Port, 1));
    assert!(rt; found[1].leaf == store.leaf(true)?);
    Ok(())
}
