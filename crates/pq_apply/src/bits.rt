//! Tests of the bits of an address.
ghost use Rattle.std.specs.Prelude.{◌≡◌, ◌<◌, ◌≤◌, suc, true, false, length, Some, slice_get, IfOk};
ghost use Rattle.pq_fields.specs.Packet.{width_of};
ghost use Rattle.pq_store.specs.Test.{is_address};
ghost use Rattle.pq_store.specs.Tree.Tree.{Tip};
ghost use Rattle.pq_store.specs.Store.{Keeps};
ghost use Rattle.pq_apply.specs.Atoms.{AreBitsAt, MakesAt, bit_at, bit_fork, bits_tree};

use pq_fields::{Field, width};
use pq_store::{NodeId, Store, Test};
use std::alloc::AllocError;

/// The diagram of the packets whose leading bits in the address, this many, are those of the number.
pub(crate) fn leading_bits(
    store: &mut Store<bool>,
    field: Field,
    value: u128,
    len: u8,
) -> Result<NodeId, AllocError>
    requires address { is_address field ≡ true }
    requires len { len ≤ width_of field }
    ensures tree { IfOk result (λ id. slice_get store.new id ≡ Some (bits_tree field value 0 len)) }
    ensures keeps { Keeps store.old store.new }
{
    let no = store.leaf(false)?;
    let mut node = store.leaf(true)?;
    let mut place = len;
    while place > 0 {
        place -= 1;
        node = with_bit(store, field, place, bit(field, value, place), node, no)?;
    }
    Ok(node)
}

/// The bit of an address at a place, 0 being the highest.
pub(crate) fn bit(field: Field, value: u128, place: u8) -> bool
    requires { place < width_of field }
    ensures { result ≡ bit_at field value place }
{
    (value >> (width(field) - 1 - u32::from(place))) % 2 == 1
}

/// The diagram of the packets that have this bit at the place, and reach `true` in another diagram, of later bits.
fn with_bit(
    store: &mut Store<bool>,
    field: Field,
    place: u8,
    set: bool,
    behind: NodeId,
    no: NodeId,
) -> Result<NodeId, AllocError>
    requires address { is_address field ≡ true }
    requires place { place < width_of field }
    requires behind { AreBitsAt store.old field (suc place) behind }
    requires no { slice_get store.old no ≡ Some (Tip false) }
    ensures makes { IfOk result (λ id. MakesAt (bit_fork set field place) store.old behind store.new id) }
    ensures keeps { Keeps store.old store.new }
{
    let test = Test::Bit(field, place);
    if set {
        let id = store.node(test, behind, no)?;
        return Ok(id);
    }
    let id = store.node(test, no, behind)?;
    Ok(id)
}
