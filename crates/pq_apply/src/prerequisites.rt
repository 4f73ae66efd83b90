//! The prerequisites of fields (OpenFlow 1.3.5, section 7.2.3.6).
ghost use Rattle.std.specs.Prelude.{◌≡◌, ◌<◌, length, IfOk};
ghost use Rattle.pq_fields.specs.Packet.{rank};
ghost use Rattle.pq_store.specs.Store.{Keeps};
ghost use Rattle.pq_apply.specs.Atoms.{IsInnerAt, MakesAt, ip_tree, present_tree, protocol_tree, type_tree};

use pq_fields::{Field, IPV4, IPV6, TCP, UDP};
use pq_store::{NodeId, Store, Test};
use std::alloc::AllocError;

/// The diagram of the packets that have the field and reach `true` in a diagram of tests of that field.
pub(crate) fn where_present(
    store: &mut Store<bool>,
    field: Field,
    inner: NodeId,
) -> Result<NodeId, AllocError>
    requires inner { IsInnerAt store.old (rank field) 1 inner }
    ensures makes { IfOk result (λ id. MakesAt (present_tree field) store.old inner store.new id) }
    ensures keeps { Keeps store.old store.new }
{
    match field {
        Field::Switch | Field::Port | Field::EthType | Field::EthSrc | Field::EthDst => Ok(inner),
        Field::IpProto => where_ip(store, inner),
        Field::Ipv4Src | Field::Ipv4Dst => where_type(store, IPV4, inner),
        Field::TcpSrc | Field::TcpDst => where_protocol(store, TCP, inner),
        Field::UdpSrc | Field::UdpDst => where_protocol(store, UDP, inner),
        Field::Ipv6Src | Field::Ipv6Dst => where_type(store, IPV6, inner),
    }
}

/// The diagram of the packets that are of IPv4 or IPv6 and of this protocol, and reach `true` in a diagram of tests of later fields.
fn where_protocol(
    store: &mut Store<bool>,
    protocol: u64,
    inner: NodeId,
) -> Result<NodeId, AllocError>
    requires protocol { protocol < 256 }
    requires inner { IsInnerAt store.old 4 1 inner }
    ensures makes { IfOk result (λ id. MakesAt (λ t. ip_tree (protocol_tree protocol t)) store.old inner store.new id) }
    ensures keeps { Keeps store.old store.new }
{
    let no = store.leaf(false)?;
    let of_protocol = store.node(Test::Equal(Field::IpProto, protocol), inner, no)?;
    let id = where_ip(store, of_protocol)?;
    Ok(id)
}

/// The diagram of the packets that are of IPv4 or IPv6 and reach `true` in a diagram of tests of later fields.
fn where_ip(store: &mut Store<bool>, inner: NodeId) -> Result<NodeId, AllocError>
    requires inner { IsInnerAt store.old 3 2 inner }
    ensures makes { IfOk result (λ id. MakesAt ip_tree store.old inner store.new id) }
    ensures keeps { Keeps store.old store.new }
{
    let of_ipv6 = where_type(store, IPV6, inner)?;
    let id = store.node(Test::Equal(Field::EthType, IPV4), inner, of_ipv6)?;
    Ok(id)
}

/// The diagram of the packets that have this EtherType and reach `true` in a diagram of tests of later fields.
fn where_type(store: &mut Store<bool>, ethertype: u64, inner: NodeId) -> Result<NodeId, AllocError>
    requires ethertype { ethertype < 65536 }
    requires inner { IsInnerAt store.old 3 2 inner }
    ensures makes { IfOk result (λ id. MakesAt (type_tree ethertype) store.old inner store.new id) }
    ensures keeps { Keeps store.old store.new }
{
    let no = store.leaf(false)?;
    let id = store.node(Test::Equal(Field::EthType, ethertype), inner, no)?;
    Ok(id)
}
