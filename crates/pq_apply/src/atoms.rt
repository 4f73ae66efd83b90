//! The diagrams of single tests of a field.
ghost use Rattle.std.specs.Prelude.{◌≡◌, ◌<◌, ◌≤◌, ◌^◌, true, Some, slice_get, IfOk};
ghost use Rattle.pq_fields.specs.Packet.{width_of};
ghost use Rattle.pq_fields.specs.Pred.{leaf};
ghost use Rattle.pq_fields.specs.Pred.PredTop.{Equals, Leads, LeadsWide};
ghost use Rattle.pq_store.specs.Test.{is_address};
ghost use Rattle.pq_store.specs.Store.{Keeps};
ghost use Rattle.pq_apply.specs.Atoms.{number_tree};
ghost use Rattle.pq_apply.specs.Predicates.{HoldsAt};

use crate::bits::leading_bits;
use crate::prerequisites::where_present;
use pq_fields::Field;
use pq_store::{NodeId, Store, Test};
use std::alloc::AllocError;

/// The diagram of the packets that have the field, with this number.
pub(crate) fn equal_number(
    store: &mut Store<bool>,
    field: Field,
    value: u64,
) -> Result<NodeId, AllocError>
    requires fits { value < 2 ^ width_of field }
    ensures holds { IfOk result (λ id. HoldsAt (leaf (Equals field value)) store.new id) }
    ensures keeps { Keeps store.old store.new }
{
    let inner = of_number(store, field, value)?;
    let id = where_present(store, field, inner)?;
    Ok(id)
}

/// The diagram of the packets that have the address, with the leading bits, this many, of this one.
pub(crate) fn equal_prefix(
    store: &mut Store<bool>,
    field: Field,
    value: u128,
    len: u8,
) -> Result<NodeId, AllocError>
    requires address { is_address field ≡ true }
    requires fits { value < 2 ^ width_of field }
    requires len { len ≤ width_of field }
    ensures holds { IfOk result (λ id. HoldsAt (leaf (Leads field value len)) store.new id) }
    ensures wide { IfOk result (λ id. HoldsAt (leaf (LeadsWide field value len)) store.new id) }
    ensures keeps { Keeps store.old store.new }
{
    let inner = leading_bits(store, field, value, len)?;
    let id = where_present(store, field, inner)?;
    Ok(id)
}

/// The diagram of the packets with this number in the field, whether or not they have it.
fn of_number(store: &mut Store<bool>, field: Field, value: u64) -> Result<NodeId, AllocError>
    requires fits { value < 2 ^ width_of field }
    ensures tree { IfOk result (λ id. slice_get store.new id ≡ Some (number_tree field value)) }
    ensures keeps { Keeps store.old store.new }
{
    match field {
        Field::Ipv4Src | Field::Ipv4Dst => leading_bits(store, field, u128::from(value), 32),
        Field::Ipv6Src | Field::Ipv6Dst => leading_bits(store, field, u128::from(value), 128),
        _ => {
            let yes = store.leaf(true)?;
            let no = store.leaf(false)?;
            let id = store.node(Test::Equal(field, value), yes, no)?;
            Ok(id)
        }
    }
}
