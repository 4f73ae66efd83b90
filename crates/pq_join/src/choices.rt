//! Choices by a test at the front of diagrams.
ghost use Rattle.std.specs.Prelude.{◌≡◌, ◌↔◌, ◌<◌, IsTrue, length, true, false, Some, slice_get, IfOk};
ghost use Rattle.pq_fields.specs.Packet.{rank};
ghost use Rattle.pq_store.specs.Test.{IsLawful, field_of};
ghost use Rattle.pq_store.specs.Tree.Tree.{Fork, Tip};
ghost use Rattle.pq_store.specs.Store.{Keeps};
ghost use Rattle.pq_apply.specs.Restriction.{RestrictsAt};
ghost use Rattle.pq_join.specs.Fronts.{ChoosesByTestAt, FitByTestAt, StartsAt};

use pq_apply::{decided, ite};
use pq_fields::Field;
use pq_store::{Leaf, NodeId, Store, Test, View};
use std::alloc::AllocError;

/// What a diagram says of the packets with this number in the field, which no test of an earlier field precedes.
pub(crate) fn at_number<L: Leaf>(store: &Store<L>, node: NodeId, field: Field, value: u64) -> NodeId
    requires node { node < length store.now }
    requires first { StartsAt field store.now node }
    ensures within { result < length store.now }
    ensures restricts { RestrictsAt field value store.now node store.now result }
{
    let mut at = node;
    loop {
        match store.view(at) {
            View::Node(test, yes, no) if is_of(test, field) => {
                at = if decided(test, value) { yes } else { no };
            }
            _ => return at,
        }
    }
}

/// Whether the test is of the field.
fn is_of(test: Test, field: Field) -> bool
    ensures { IsTrue result ↔ (rank (field_of test) ≡ rank field) }
{
    let (tested, own) = (test.field() as u8, field as u8);
    tested == own
}

/// The diagram of the packets that pass the test.
fn passing(tests: &mut Store<bool>, test: Test) -> Result<NodeId, AllocError>
    requires { IsLawful test }
    ensures tree { IfOk result (λ id. slice_get tests.new id ≡ Some (Fork test (Tip true) (Tip false))) }
    ensures keeps { Keeps tests.old tests.new }
{
    let yes = tests.leaf(true)?;
    let no = tests.leaf(false)?;
    let id = tests.node(test, yes, no)?;
    Ok(id)
}

/// The diagram that gives what `yes` gives of packets that pass the test, and what `no` gives of others.
pub(crate) fn where_passed<L: Leaf>(
    tests: &mut Store<bool>,
    test: Test,
    store: &mut Store<L>,
    yes: NodeId,
    no: NodeId,
) -> Result<NodeId, AllocError>
    requires lawful { IsLawful test }
    requires yes { yes < length store.old }
    requires no { no < length store.old }
    requires fit { FitByTestAt test store.old yes no }
    ensures chooses { IfOk result (λ id. ChoosesByTestAt test store.old yes no store.new id) }
    ensures keeps { Keeps store.old store.new }
{
    let passing = passing(tests, test)?;
    let id = ite(tests, passing, store, yes, no)?;
    Ok(id)
}
