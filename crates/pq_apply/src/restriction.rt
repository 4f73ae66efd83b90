//! Diagrams with one field's number set.
ghost use Rattle.std.specs.Prelude.{◌≡◌, ◌<◌, ◌^◌, ◌==◌, false, length, IfOk, OnOk};
ghost use Rattle.pq_fields.specs.Packet.{is_wide, width_of};
ghost use Rattle.pq_store.specs.Test.{IsLawful};
ghost use Rattle.pq_store.specs.Store.{AreDiagrams, Keeps};
ghost use Rattle.pq_apply.specs.Memo.{Remembers};
ghost use Rattle.pq_apply.specs.Restricting.{IsRestrictedAt, StepsAt, decides};
ghost use Rattle.pq_apply.specs.Restriction.{RestrictsAt};

use crate::bits::bit;
use crate::memo::{recall, remember};
use indexmap::IndexMap;
use pq_fields::Field;
use pq_store::{Leaf, NodeId, Store, Test, View};
use std::alloc::AllocError;

/// The diagram that gives on each packet what the old one gives on the packet with this number in the field.
///
/// The number fits the field, which is not an IPv6 address. The result tests only what the old diagram tests,
/// and the field no more.
pub fn restrict<L: Leaf>(
    store: &mut Store<L>,
    node: NodeId,
    field: Field,
    value: u64,
) -> Result<NodeId, AllocError>
    requires node { node < length store.old }
    requires narrow { is_wide field ≡ false }
    requires fits { value < 2 ^ width_of field }
    ensures restricts { IfOk result (λ id. RestrictsAt field value store.old node store.new id) }
    ensures keeps { Keeps store.old store.new }
{
    let mut done = IndexMap::new(store.allocator());
    let id = restricted(store, node, field, value, &mut done)?;
    Ok(id)
}

/// What the root of a diagram asks for.
#[derive(Drop)]
enum Step {
    /// All tests are of later fields.
    Keep,
    /// The number decides the test: only one side is reached.
    Side(NodeId),
    /// The test is of an earlier field.
    Both(Test, NodeId, NodeId),
}

/// What the root of a diagram asks for.
fn next_step<L: Leaf>(store: &Store<L>, node: NodeId, field: Field, value: u64) -> Step
    requires { node < length store.now }
    ensures step { StepsAt field value store.now node result }
    ensures diagrams { AreDiagrams store.now }
{
    match store.view(node) {
        View::Leaf(_) => Step::Keep,
        View::Node(test, yes, no) => {
            let (tested, set) = (test.field() as u8, field as u8);
            if set < tested {
                return Step::Keep;
            }
            if tested < set {
                return Step::Both(test, yes, no);
            }
            if decided(test, value) {
                return Step::Side(yes);
            }
            Step::Side(no)
        }
    }
}

/// The answer to a test of a field with this number.
pub fn decided(test: Test, value: u64) -> bool
    requires { IsLawful test }
    ensures { result ≡ decides test value }
{
    match test {
        Test::Equal(_, number) => value == number,
        Test::Bit(field, place) => bit(field, u128::from(value), place),
    }
}

/// The restriction of a diagram, made once for each node. It recurs as deep as a path of the diagram.
fn restricted<L: Leaf>(
    store: &mut Store<L>,
    node: NodeId,
    field: Field,
    value: u64,
    done: &mut IndexMap<NodeId, NodeId>,
) -> Result<NodeId, AllocError>
    requires node { node < length store.old }
    requires done { Remembers (λ x y. x == y) (λ key id. IsRestrictedAt field value store.old key id) done.old }
    ensures restricted { IfOk result (λ id. IsRestrictedAt field value store.new node id) }
    ensures done { OnOk result (Remembers (λ x y. x == y) (λ key id. IsRestrictedAt field value store.new key id) done.new) }
    ensures keeps { Keeps store.old store.new }
{
    if let Some(id) = recall(done, &node) {
        return Ok(id);
    }
    match next_step(store, node, field, value) {
        Step::Keep => Ok(node),
        Step::Side(side) => {
            let id = restricted(store, side, field, value, done)?;
            remember(done, node, id)?;
            Ok(id)
        }
        Step::Both(test, yes, no) => {
            let new_yes = restricted(store, yes, field, value, done)?;
            let new_no = restricted(store, no, field, value, done)?;
            let id = store.node(test, new_yes, new_no)?;
            remember(done, node, id)?;
            Ok(id)
        }
    }
}
