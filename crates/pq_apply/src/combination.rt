ghost use Rattle.std.specs.Prelude.{◌≡◌, ◌<◌, Ok, length, IfOk, OnOk};
ghost use Rattle.pq_store.specs.Store.{Keeps};
ghost use Rattle.pq_apply.specs.Memo.{Remembers, same_pair};
ghost use Rattle.pq_apply.specs.Pairing.{IsPairedAt};
ghost use Rattle.pq_apply.specs.Product.{FitTogetherAt, Gives, IsProduct};

use crate::memo::{recall, remember};
use crate::products::{Top, begin_with};
use crate::splitting::split;
use indexmap::IndexMap;
use pq_store::{Leaf, NodeId, Store};
use std::alloc::AllocError;

/// The diagram that gives on each packet what `join` makes of the leaves of two others of the same store.
///
/// There is room for the numbers that both test. The result tests only what they test.
pub fn combine<L: Leaf, F: Fn(&L, &L) -> Result<L, AllocError>>(
    store: &mut Store<L>,
    x: NodeId,
    y: NodeId,
    join: &F,
) -> Result<NodeId, AllocError>
    requires x { x < length store.old }
    requires y { y < length store.old }
    requires fit { FitTogetherAt store.old x store.old y }
    requires join { F.IsAlwaysCallable join.now }
    ensures product { IfOk result (λ id. IsProduct (λ a b c. Gives (F.post join.now) a b (Ok c)) store.old x store.old y store.new id) }
    ensures keeps { Keeps store.old store.new }
{
    let mut done = IndexMap::new(store.allocator());
    let id = combined(store, x, y, join, &mut done)?;
    Ok(id)
}

/// The combination of two nodes, made once for each two. It recurs as deep as the paths of both diagrams together.
fn combined<L: Leaf, F: Fn(&L, &L) -> Result<L, AllocError>>(
    store: &mut Store<L>,
    x: NodeId,
    y: NodeId,
    join: &F,
    done: &mut IndexMap<(NodeId, NodeId), NodeId>,
) -> Result<NodeId, AllocError>
    requires x { x < length store.old }
    requires y { y < length store.old }
    requires fit { FitTogetherAt store.old x store.old y }
    requires join { F.IsAlwaysCallable join.now }
    requires done { Remembers same_pair (λ key id. IsPairedAt
        (λ a b c. Gives (F.post join.now) a b (Ok c)) store.old key.0 store.old key.1 store.old id) done.old }
    ensures paired { IfOk result (λ id. IsPairedAt (λ a b c. Gives (F.post join.now) a b (Ok c)) store.new x store.new y store.new id) }
    ensures done { OnOk result (Remembers same_pair
        (λ key id. IsPairedAt (λ a b c. Gives (F.post join.now) a b (Ok c)) store.new key.0 store.new key.1 store.new id) done.new) }
    ensures keeps { Keeps store.old store.new }
{
    if let Some(id) = recall(done, &(x, y)) {
        return Ok(id);
    }
    match begin_with(store, x, store, y) {
        Top::Leaves(a, b) => {
            let value = join(a, b)?;
            let id = store.leaf(value)?;
            remember(done, (x, y), id)?;
            Ok(id)
        }
        Top::First(test) => {
            let (x_yes, x_no) = split(store, test, x);
            let (y_yes, y_no) = split(store, test, y);
            let yes = combined(store, x_yes, y_yes, join, done)?;
            let no = combined(store, x_no, y_no, join, done)?;
            let id = store.node(test, yes, no)?;
            remember(done, (x, y), id)?;
            Ok(id)
        }
    }
}
