//! Choices by whether a packet has a field that can be written.
ghost use Rattle.std.specs.Prelude.{◌≡◌, ◌<◌, true, length, IfOk};
ghost use Rattle.pq_fields.specs.Packet.{has_field};
ghost use Rattle.pq_fields.specs.Writes.{is_writable};
ghost use Rattle.pq_store.specs.Store.{Keeps};
ghost use Rattle.pq_rewrite.specs.Choices.{ChoosesByAt, FitByAt, TellsPresence, field_needs};

use pq_apply::{ite, pred_node};
use pq_fields::{Field, IPV4, Pred, TCP, UDP};
use pq_store::{Leaf, NodeId, Store};
use std::alloc::AllocError;

/// The predicate that says whether a packet has a field that can be written; none where every packet has it
/// (OpenFlow 1.3.5, section 7.2.3.6).
pub(crate) fn presence(field: Field) -> Option<Pred>
    requires { is_writable field ≡ true }
    ensures { TellsPresence field result }
{
    match field {
        Field::Ipv4Src | Field::Ipv4Dst => Some(Pred::Equal(Field::EthType, IPV4)),
        Field::TcpSrc | Field::TcpDst => Some(Pred::Equal(Field::IpProto, TCP)),
        Field::UdpSrc | Field::UdpDst => Some(Pred::Equal(Field::IpProto, UDP)),
        _ => None,
    }
}

/// The diagram that gives what `yes` gives of packets that have the field, and what `no` gives of others.
pub(crate) fn where_present<L: Leaf>(
    tests: &mut Store<bool>,
    field: Field,
    store: &mut Store<L>,
    yes: NodeId,
    no: NodeId,
) -> Result<NodeId, AllocError>
    requires writable { is_writable field ≡ true }
    requires yes { yes < length store.old }
    requires no { no < length store.old }
    requires fit { FitByAt (field_needs field) store.old yes no }
    ensures chooses { IfOk result (λ id. ChoosesByAt (has_field field) (field_needs field) store.old yes no store.new id) }
    ensures keeps { Keeps store.old store.new }
{
    match presence(field) {
        None => Ok(yes),
        Some(pred) => {
            let has = pred_node(tests, &pred)?;
            let id = ite(tests, has, store, yes, no)?;
            Ok(id)
        }
    }
}
