//! Diagrams on packets whose fields are set to the numbers that are written.
ghost use Rattle.std.specs.Prelude.{◌≡◌, ◌<◌, All, false, length, IfOk};
ghost use Rattle.pq_fields.specs.declared.field.Field.TheVariants.{Port};
ghost use Rattle.pq_fields.specs.Packet.{is_wide};
ghost use Rattle.pq_store.specs.Store.{Keeps};
ghost use Rattle.pq_join.specs.Fronts.{StartsAt};
ghost use Rattle.pq_join.specs.Overwriting.{OverwritesAt, SetsAllAt};

use crate::choices::at_number;
use pq_apply::restrict;
use pq_fields::{Field, Writes};
use pq_store::{Leaf, NodeId, Store};
use std::alloc::AllocError;

/// The fields of headers that can be written, in field order.
const HEADERS: [Field; 8] = [
    Field::EthSrc,
    Field::EthDst,
    Field::Ipv4Src,
    Field::Ipv4Dst,
    Field::TcpSrc,
    Field::TcpDst,
    Field::UdpSrc,
    Field::UdpDst,
];

/// The diagram that gives on each packet what another, without tests of the switch, gives on the packet with each number
/// written into its field, whether or not the packet has it. It tests only what the other tests.
pub(crate) fn overwritten<L: Leaf>(
    store: &mut Store<L>,
    node: NodeId,
    writes: &Writes,
) -> Result<NodeId, AllocError>
    requires node { node < length store.old }
    requires first { StartsAt Port store.old node }
    ensures overwrites { IfOk result (λ id. OverwritesAt writes.now store.old node store.new id) }
    ensures keeps { Keeps store.old store.new }
{
    match writes.get(Field::Port) {
        None => {
            let id = with_headers(store, node, writes, &HEADERS)?;
            Ok(id)
        }
        Some(port) => {
            let at_port = at_number(store, node, Field::Port, port);
            let id = with_headers(store, at_port, writes, &HEADERS)?;
            Ok(id)
        }
    }
}

/// The diagram that gives on each packet what another gives on the packet with the numbers of these fields written.
/// It recurs once for each field, of which there are at most nine.
fn with_headers<L: Leaf>(
    store: &mut Store<L>,
    node: NodeId,
    writes: &Writes,
    fields: &[Field],
) -> Result<NodeId, AllocError>
    requires node { node < length store.old }
    requires narrow { All (λ f. is_wide f ≡ false) fields.now }
    ensures sets { IfOk result (λ id. SetsAllAt fields.now writes.now store.old node store.new id) }
    ensures keeps { Keeps store.old store.new }
{
    match fields {
        [] => Ok(node),
        [field, later @ ..] => match writes.get(*field) {
            None => {
                let id = with_headers(store, node, writes, later)?;
                Ok(id)
            }
            Some(value) => {
                let set = restrict(store, node, *field, value)?;
                let id = with_headers(store, set, writes, later)?;
                Ok(id)
            }
        },
    }
}
