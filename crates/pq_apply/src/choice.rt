ghost use Rattle.std.specs.Prelude.{◌<◌, length, IfOk, OnOk};
ghost use Rattle.pq_store.specs.Store.{AreDiagrams, Keeps};
ghost use Rattle.pq_apply.specs.Choice.{ChoosesAt, FitAsChoiceAt};
ghost use Rattle.pq_apply.specs.Choosing.{IsChosenAt, IsStepAt};
ghost use Rattle.pq_apply.specs.Memo.{Remembers, same_triple};

use crate::memo::{recall, remember};
use crate::splitting::{earlier, root, split};
use indexmap::IndexMap;
use pq_store::{Leaf, NodeId, Store, Test, View};
use std::alloc::AllocError;

/// The diagram that gives what `yes` gives where the condition holds, and what `no` gives elsewhere.
///
/// There is room for the numbers that the three test. The result tests only what they test.
pub fn ite<L: Leaf>(
    tests: &Store<bool>,
    cond: NodeId,
    store: &mut Store<L>,
    yes: NodeId,
    no: NodeId,
) -> Result<NodeId, AllocError>
    requires cond { cond < length tests.now }
    requires yes { yes < length store.old }
    requires no { no < length store.old }
    requires fit { FitAsChoiceAt tests.now cond store.old yes no }
    ensures chooses { IfOk result (λ id. ChoosesAt tests.now cond store.old yes no store.new id) }
    ensures keeps { Keeps store.old store.new }
{
    let mut done = IndexMap::new(store.allocator());
    let id = chosen(tests, cond, store, yes, no, &mut done)?;
    Ok(id)
}

/// How a choice begins.
#[derive(Drop)]
enum Step {
    /// It is one of the two.
    Settled(NodeId),
    /// With the first test of the three.
    First(Test),
}

/// How a choice between two nodes begins.
fn first_step<L: Leaf>(
    tests: &Store<bool>,
    cond: NodeId,
    store: &Store<L>,
    yes: NodeId,
    no: NodeId,
) -> Step
    requires cond { cond < length tests.now }
    requires yes { yes < length store.now }
    requires no { no < length store.now }
    ensures step { IsStepAt tests.now cond store.now yes no result }
    ensures tests { AreDiagrams tests.now }
    ensures store { AreDiagrams store.now }
{
    let condition = tests.view(cond);
    let (yes_root, no_root) = (root(store, yes), root(store, no));
    if yes == no {
        return Step::Settled(yes);
    }
    match condition {
        View::Leaf(true) => Step::Settled(yes),
        View::Leaf(false) => Step::Settled(no),
        View::Node(test, _, _) => Step::First(earlier(earlier(test, yes_root), no_root)),
    }
}

/// The choice between two nodes, made once for each three. It recurs as deep as the paths of the three diagrams together.
fn chosen<L: Leaf>(
    tests: &Store<bool>,
    cond: NodeId,
    store: &mut Store<L>,
    yes: NodeId,
    no: NodeId,
    done: &mut IndexMap<(NodeId, NodeId, NodeId), NodeId>,
) -> Result<NodeId, AllocError>
    requires cond { cond < length tests.now }
    requires yes { yes < length store.old }
    requires no { no < length store.old }
    requires fit { FitAsChoiceAt tests.now cond store.old yes no }
    requires done { Remembers same_triple (λ key id. IsChosenAt tests.now key.0 store.old key.1 key.2 id) done.old }
    ensures chosen { IfOk result (λ id. IsChosenAt tests.now cond store.new yes no id) }
    ensures done { OnOk result (Remembers same_triple (λ key id. IsChosenAt tests.now key.0 store.new key.1 key.2 id) done.new) }
    ensures keeps { Keeps store.old store.new }
{
    match first_step(tests, cond, store, yes, no) {
        Step::Settled(id) => Ok(id),
        Step::First(test) => {
            if let Some(id) = recall(done, &(cond, yes, no)) {
                return Ok(id);
            }
            let (cond_yes, cond_no) = split(tests, test, cond);
            let (yes_yes, yes_no) = split(store, test, yes);
            let (no_yes, no_no) = split(store, test, no);
            let passed = chosen(tests, cond_yes, store, yes_yes, no_yes, done)?;
            let failed = chosen(tests, cond_no, store, yes_no, no_no, done)?;
            let id = store.node(test, passed, failed)?;
            remember(done, (cond, yes, no), id)?;
            Ok(id)
        }
    }
}
