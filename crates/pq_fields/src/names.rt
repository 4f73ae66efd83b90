//! The names of fields.
ghost use Rattle.std.specs.Prelude.{◌≡◌, bytes_eq};
ghost use Rattle.std.specs.List.{find};
ghost use Rattle.pq_fields.specs.Names.{field_name, field_named};

use crate::field::Field;

/// The fields, in field order.
const FIELDS: [Field; 14] = [
    Field::Switch,
    Field::Port,
    Field::EthType,
    Field::IpProto,
    Field::EthSrc,
    Field::EthDst,
    Field::Ipv4Src,
    Field::Ipv4Dst,
    Field::TcpSrc,
    Field::TcpDst,
    Field::UdpSrc,
    Field::UdpDst,
    Field::Ipv6Src,
    Field::Ipv6Dst,
];

/// The name of a field, as documents, schedules and printed packets have it.
pub fn field_name(field: Field) -> &'static [u8]
    ensures { result.now ≡ field_name field }
{
    match field {
        Field::Switch => b"switch",
        Field::Port => b"port",
        Field::EthType => b"eth_type",
        Field::IpProto => b"ip_proto",
        Field::EthSrc => b"eth_src",
        Field::EthDst => b"eth_dst",
        Field::Ipv4Src => b"ipv4_src",
        Field::Ipv4Dst => b"ipv4_dst",
        Field::TcpSrc => b"tcp_src",
        Field::TcpDst => b"tcp_dst",
        Field::UdpSrc => b"udp_src",
        Field::UdpDst => b"udp_dst",
        Field::Ipv6Src => b"ipv6_src",
        Field::Ipv6Dst => b"ipv6_dst",
    }
}

/// The first of the fields with this name.
fn first_named(fields: &[Field], name: &[u8]) -> Option<Field>
    ensures { result ≡ find (λ f. bytes_eq (field_name f) name.now) fields.now }
{
    for field in fields {
        if field_name(*field) == name {
            return Some(*field);
        }
    }
    None
}

/// The field with this name; `None` exactly where no field has it.
pub fn field_named(name: &[u8]) -> Option<Field>
    ensures { result ≡ field_named name.now }
{
    first_named(&FIELDS, name)
}
