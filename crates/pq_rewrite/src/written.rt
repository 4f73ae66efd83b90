//! Diagrams on packets that have been written.
ghost use Rattle.std.specs.Prelude.{◌≡◌, ◌<◌, ◌==◌, true, false, length, Some, slice_get, IfOk, IfSome, OnOk};
ghost use Rattle.pq_fields.specs.Packet.{Numbers};
ghost use Rattle.pq_store.specs.Test.{IsLawful};
ghost use Rattle.pq_store.specs.Tree.Tree.{Fork, Tip};
ghost use Rattle.pq_store.specs.Store.{AreDiagrams, Keeps};
ghost use Rattle.pq_apply.specs.Memo.{Remembers};
ghost use Rattle.pq_rewrite.specs.Calls.{ComesAfterAt, FitsAfterAt};
ghost use Rattle.pq_rewrite.specs.Choices.{
  ChoosesByAt,
  FitByAt,
  IsStepAt,
  IsToldAt,
  passes_after,
  test_needs,
};

use crate::presence::{presence, where_present};
use indexmap::IndexMap;
use pq_apply::{decided, ite, recall, remember};
use pq_fields::Writes;
use pq_store::{Leaf, NodeId, Store, Test, View};
use std::alloc::AllocError;

/// The diagram that gives on each packet what another gives on the packet written.
///
/// There is room for the numbers that it tests, and those in prerequisites of the fields that are written. The result tests no
/// others.
pub fn after<M: Leaf + Clone>(
    by: &Writes,
    from: &Store<M>,
    node: NodeId,
    into: &mut Store<M>,
) -> Result<NodeId, AllocError>
    requires node { node < length from.now }
    requires fits { FitsAfterAt by.now from.now node }
    requires clones { (x y : M) → M.is_clone x y → y ≡ x }
    ensures after { IfOk result (λ id. ComesAfterAt by.now from.now node into.new id) }
    ensures keeps { Keeps into.old into.new }
{
    let mut tests = Store::new(into.allocator());
    let mut done = IndexMap::new(into.allocator());
    let id = told(by, from, node, into, &mut tests, &mut done)?;
    Ok(id)
}

/// What a node asks of a packet that is written first.
#[derive(Drop)]
pub(crate) enum Step<'a, M> {
    /// Nothing: it is a leaf.
    Leaf(&'a M),
    /// Only one side is reached.
    Side(NodeId),
    /// The answer may be yes or no.
    Both(Test, NodeId, NodeId),
}

/// What a node asks of a packet that is written first.
pub(crate) fn next_step<'a, M: Leaf>(by: &Writes, from: &'a Store<M>, node: NodeId) -> Step<'a, M>
    requires { node < length from.now }
    ensures step { IsStepAt by.now from.now node result }
    ensures diagrams { AreDiagrams from.now }
{
    match from.view(node) {
        View::Leaf(leaf) => Step::Leaf(leaf),
        View::Node(test, yes, no) => match known(by, test) {
            Some(true) => Step::Side(yes),
            Some(false) => Step::Side(no),
            None => Step::Both(test, yes, no),
        },
    }
}

/// The answer to the test of a field that every packet has and that is written.
fn known(by: &Writes, test: Test) -> Option<bool>
    requires { IsLawful test }
    ensures { IfSome result (λ answer. (x : Numbers) → passes_after by.now test x ≡ answer) }
{
    let value = by.get(test.field())?;
    match presence(test.field()) {
        None => Some(decided(test, value)),
        Some(_) => None,
    }
}

/// The diagram of the packets that pass the test.
fn passing(tests: &mut Store<bool>, test: Test) -> Result<NodeId, AllocError>
    requires { IsLawful test }
    ensures tree { IfOk result (λ id. slice_get tests.new id ≡ Some (Fork test (Tip true) (Tip false))) }
    ensures keeps { Keeps tests.old tests.new }
{
    let yes = tests.leaf(true)?;
    let no = tests.leaf(false)?;
    let id = tests.node(test, yes, no)?;
    Ok(id)
}

/// The diagram on packets that are written first, made once for each node. It recurs as deep as a path of the diagram.
fn told<M: Leaf + Clone>(
    by: &Writes,
    from: &Store<M>,
    node: NodeId,
    into: &mut Store<M>,
    tests: &mut Store<bool>,
    done: &mut IndexMap<NodeId, NodeId>,
) -> Result<NodeId, AllocError>
    requires node { node < length from.now }
    requires fits { FitsAfterAt by.now from.now node }
    requires clones { (x y : M) → M.is_clone x y → y ≡ x }
    requires done { Remembers (λ x y. x == y) (λ key id. IsToldAt by.now from.now key into.old id) done.old }
    ensures told { IfOk result (λ id. IsToldAt by.now from.now node into.new id) }
    ensures done { OnOk result (Remembers (λ x y. x == y) (λ key id. IsToldAt by.now from.now key into.new id) done.new) }
    ensures keeps { Keeps into.old into.new }
{
    if let Some(id) = recall(done, &node) {
        return Ok(id);
    }
    match next_step(by, from, node) {
        Step::Leaf(leaf) => {
            let copy = leaf.clone()?;
            let id = into.leaf(copy)?;
            remember(done, node, id)?;
            Ok(id)
        }
        Step::Side(side) => {
            let id = told(by, from, side, into, tests, done)?;
            remember(done, node, id)?;
            Ok(id)
        }
        Step::Both(test, yes, no) => {
            let passed = told(by, from, yes, into, tests, done)?;
            let failed = told(by, from, no, into, tests, done)?;
            let id = where_passed(tests, by, test, into, passed, failed)?;
            remember(done, node, id)?;
            Ok(id)
        }
    }
}

/// The diagram that gives what `yes` gives of packets that pass the test once they are written, and what `no` gives of others.
pub(crate) fn where_passed<L: Leaf>(
    tests: &mut Store<bool>,
    by: &Writes,
    test: Test,
    store: &mut Store<L>,
    yes: NodeId,
    no: NodeId,
) -> Result<NodeId, AllocError>
    requires lawful { IsLawful test }
    requires yes { yes < length store.old }
    requires no { no < length store.old }
    requires fit { FitByAt (test_needs by.now test) store.old yes no }
    ensures chooses { IfOk result (λ id. ChoosesByAt (passes_after by.now test) (test_needs by.now test) store.old yes no store.new id) }
    ensures keeps { Keeps store.old store.new }
{
    let passing = passing(tests, test)?;
    let unwritten = ite(tests, passing, store, yes, no)?;
    match by.get(test.field()) {
        None => Ok(unwritten),
        Some(value) => {
            let written = if decided(test, value) { yes } else { no };
            let id = where_present(tests, test.field(), store, written, unwritten)?;
            Ok(id)
        }
    }
}
