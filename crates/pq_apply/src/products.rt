ghost use Rattle.std.specs.Prelude.{◌≡◌, ◌<◌, Ok, length, IfOk, OnOk};
ghost use Rattle.pq_store.specs.Store.{AreDiagrams, Keeps};
ghost use Rattle.pq_apply.specs.Memo.{Remembers, same_pair};
ghost use Rattle.pq_apply.specs.Pairing.{IsPairedAt, IsTopAt};
ghost use Rattle.pq_apply.specs.Product.{FitTogetherAt, Gives, IsProduct};

use crate::memo::{recall, remember};
use crate::splitting::{earlier, root, split};
use indexmap::IndexMap;
use pq_store::{Leaf, NodeId, Store, Test, View};
use std::alloc::AllocError;

/// The diagram that gives on each packet what `join` makes of the leaves of two others.
///
/// There is room for the numbers that both test. The result tests only what they test.
pub fn product<A: Leaf, B: Leaf, C: Leaf, F: Fn(&A, &B) -> Result<C, AllocError>>(
    left: &Store<A>,
    x: NodeId,
    right: &Store<B>,
    y: NodeId,
    into: &mut Store<C>,
    join: &F,
) -> Result<NodeId, AllocError>
    requires x { x < length left.now }
    requires y { y < length right.now }
    requires fit { FitTogetherAt left.now x right.now y }
    requires join { F.IsAlwaysCallable join.now }
    ensures product { IfOk result (λ id. IsProduct (λ a b c. Gives (F.post join.now) a b (Ok c)) left.now x right.now y into.new id) }
    ensures keeps { Keeps into.old into.new }
{
    let mut done = IndexMap::new(into.allocator());
    let id = paired(left, x, right, y, into, join, &mut done)?;
    Ok(id)
}

/// What two nodes begin with.
#[derive(Drop)]
pub(crate) enum Top<'a, A, B> {
    /// Two leaves.
    Leaves(&'a A, &'a B),
    /// The first of their tests.
    First(Test),
}

/// What two nodes begin with: the leaves, or the first of the tests.
pub(crate) fn begin_with<'a, A: Leaf, B: Leaf>(
    left: &'a Store<A>,
    x: NodeId,
    right: &'a Store<B>,
    y: NodeId,
) -> Top<'a, A, B>
    requires x { x < length left.now }
    requires y { y < length right.now }
    ensures top { IsTopAt left.now x right.now y result }
    ensures left { AreDiagrams left.now }
    ensures right { AreDiagrams right.now }
{
    match left.view(x) {
        View::Node(test, _, _) => Top::First(earlier(test, root(right, y))),
        View::Leaf(a) => match right.view(y) {
            View::Node(test, _, _) => Top::First(test),
            View::Leaf(b) => Top::Leaves(a, b),
        },
    }
}

/// The product of two nodes, made once for each two. It recurs as deep as the paths of both diagrams together.
fn paired<A: Leaf, B: Leaf, C: Leaf, F: Fn(&A, &B) -> Result<C, AllocError>>(
    left: &Store<A>,
    x: NodeId,
    right: &Store<B>,
    y: NodeId,
    into: &mut Store<C>,
    join: &F,
    done: &mut IndexMap<(NodeId, NodeId), NodeId>,
) -> Result<NodeId, AllocError>
    requires x { x < length left.now }
    requires y { y < length right.now }
    requires fit { FitTogetherAt left.now x right.now y }
    requires join { F.IsAlwaysCallable join.now }
    requires done { Remembers same_pair (λ key id. IsPairedAt
        (λ a b c. Gives (F.post join.now) a b (Ok c)) left.now key.0 right.now key.1 into.old id) done.old }
    ensures paired { IfOk result (λ id. IsPairedAt (λ a b c. Gives (F.post join.now) a b (Ok c)) left.now x right.now y into.new id) }
    ensures done { OnOk result (Remembers same_pair
        (λ key id. IsPairedAt (λ a b c. Gives (F.post join.now) a b (Ok c)) left.now key.0 right.now key.1 into.new id) done.new) }
    ensures keeps { Keeps into.old into.new }
{
    if let Some(id) = recall(done, &(x, y)) {
        return Ok(id);
    }
    match begin_with(left, x, right, y) {
        Top::Leaves(a, b) => {
            let value = join(a, b)?;
            let id = into.leaf(value)?;
            remember(done, (x, y), id)?;
            Ok(id)
        }
        Top::First(test) => {
            let (x_yes, x_no) = split(left, test, x);
            let (y_yes, y_no) = split(right, test, y);
            let yes = paired(left, x_yes, right, y_yes, into, join, done)?;
            let no = paired(left, x_no, right, y_no, into, join, done)?;
            let id = into.node(test, yes, no)?;
            remember(done, (x, y), id)?;
            Ok(id)
        }
    }
}
