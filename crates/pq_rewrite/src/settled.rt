//! Diagrams that write: each number only into packets that have the field with another.
ghost use Rattle.std.specs.Prelude.{◌≡◌, ◌<◌, ◌^◌, [], ◌∷◌, All, true, length, Some, slice_get, IfOk};
ghost use Rattle.pq_fields.specs.Packet.{width_of};
ghost use Rattle.pq_fields.specs.Writes.{is_writable};
ghost use Rattle.pq_store.specs.Tree.Tree.{Tip};
ghost use Rattle.pq_store.specs.Store.{HasAt, Keeps};
ghost use Rattle.pq_rewrite.specs.Calls.{IsWriting};
ghost use Rattle.pq_rewrite.specs.Choices.{ChoosesByAt, FitByAt, change_needs, differs};
ghost use Rattle.pq_rewrite.specs.Settled.{IsSettled, IsSettledFrom};

use crate::presence::where_present;
use crate::write_set::WriteSet;
use pq_apply::{ite, pred_node};
use pq_fields::{Field, Pred, Writes};
use pq_store::{NodeId, Store};
use std::alloc::AllocError;

/// The fields that can be written, in field order.
pub(crate) const WRITABLE: [Field; 9] = [
    Field::Port,
    Field::EthSrc,
    Field::EthDst,
    Field::Ipv4Src,
    Field::Ipv4Dst,
    Field::TcpSrc,
    Field::TcpDst,
    Field::UdpSrc,
    Field::UdpDst,
];

/// The diagram that gives each packet with the number written into the field; the field can be written, and the number fits it.
///
/// It tests the number, and those in the field's prerequisites, and writes the number alone.
pub fn write(store: &mut Store<WriteSet>, field: Field, value: u64) -> Result<NodeId, AllocError>
    requires writable { is_writable field ≡ true }
    requires fits { value < 2 ^ width_of field }
    ensures writes { IfOk result (λ id. HasAt (IsWriting field value) store.new id) }
    ensures keeps { Keeps store.old store.new }
{
    let mut tests = Store::new(store.allocator());
    let writes = Writes::none().set(field, value);
    let id = settled(store, &mut tests, &writes)?;
    Ok(id)
}

/// The diagram that gives each packet written.
fn settled(
    store: &mut Store<WriteSet>,
    tests: &mut Store<bool>,
    writes: &Writes,
) -> Result<NodeId, AllocError>
    ensures settled { IfOk result (λ id. HasAt (IsSettled writes.now) store.new id) }
    ensures keeps { Keeps store.old store.new }
{
    // Opens the writes: each of their numbers fits its field.
    let _ = &writes.port;
    let id = settled_from(store, tests, writes, &WRITABLE, Writes::none())?;
    Ok(id)
}

/// The diagram that gives each packet with these of the fields written, and with what is to be written besides.
/// It recurs once for each field, of which there are at most nine.
pub(crate) fn settled_from(
    store: &mut Store<WriteSet>,
    tests: &mut Store<bool>,
    writes: &Writes,
    fields: &[Field],
    done: Writes,
) -> Result<NodeId, AllocError>
    requires writable { All (λ f. is_writable f ≡ true) fields.now }
    ensures settled { IfOk result (λ id. HasAt (IsSettledFrom fields.now writes.now done) store.new id) }
    ensures keeps { Keeps store.old store.new }
{
    match fields {
        [] => {
            let id = single(store, done)?;
            Ok(id)
        }
        [field, later @ ..] => match writes.get(*field) {
            None => {
                let id = settled_from(store, tests, writes, later, done)?;
                Ok(id)
            }
            Some(value) => {
                let no = settled_from(store, tests, writes, later, done)?;
                let yes = settled_from(store, tests, writes, later, done.set(*field, value))?;
                let id = where_changed(store, tests, *field, value, yes, no)?;
                Ok(id)
            }
        },
    }
}

/// The leaf with these writes alone.
fn single(store: &mut Store<WriteSet>, writes: Writes) -> Result<NodeId, AllocError>
    ensures leaf { IfOk result (λ id. slice_get store.new id ≡ Some (Tip (writes ∷ []))) }
    ensures keeps { Keeps store.old store.new }
{
    let list = vec![in store.allocator(); writes]?;
    let id = store.leaf(WriteSet::of(list))?;
    Ok(id)
}

/// The diagram that gives what `yes` gives of packets that have the field with another number, and what `no` gives of others.
fn where_changed(
    store: &mut Store<WriteSet>,
    tests: &mut Store<bool>,
    field: Field,
    value: u64,
    yes: NodeId,
    no: NodeId,
) -> Result<NodeId, AllocError>
    requires writable { is_writable field ≡ true }
    requires fits { value < 2 ^ width_of field }
    requires yes { yes < length store.old }
    requires no { no < length store.old }
    requires fit { FitByAt (change_needs field value) store.old yes no }
    ensures chooses { IfOk result (λ id. ChoosesByAt (differs field value) (change_needs field value) store.old yes no store.new id) }
    ensures keeps { Keeps store.old store.new }
{
    let same = pred_node(tests, &Pred::Equal(field, value))?;
    let differs = ite(tests, same, store, no, yes)?;
    let id = where_present(tests, field, store, differs, no)?;
    Ok(id)
}
