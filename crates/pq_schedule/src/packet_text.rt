//! The fields of a packet, as it is printed.
ghost use Rattle.std.specs.Prelude.{◌≡◌, ◌++◌, codes, OnOk};
ghost use Rattle.std.specs.List.{filter, flat_map};
ghost use Rattle.pq_fields.specs.Packet.{has_field, number_in};
ghost use Rattle.pq_schedule.specs.States.{field_text, packet_text};
ghost use Rattle.pq_schedule.specs.Values.{form_of, text_in};

use crate::numbers::{write_decimal, write_ipv4, write_ipv6, write_mac};
use pq_fields::{Field, Packet, field_name, has};
use std::alloc::AllocError;

/// The fields after the first, in field order.
const FURTHER_FIELDS: [Field; 13] = [
    Field::Port,
    Field::EthType,
    Field::IpProto,
    Field::EthSrc,
    Field::EthDst,
    Field::Ipv4Src,
    Field::Ipv4Dst,
    Field::TcpSrc,
    Field::TcpDst,
    Field::UdpSrc,
    Field::UdpDst,
    Field::Ipv6Src,
    Field::Ipv6Dst,
];

/// Appends the number that the packet has in a field.
fn write_number(field: Field, x: &Packet, into: &mut Vec<u8>) -> Result<(), AllocError>
    ensures { OnOk result (into.new.items
        ≡ into.old.items ++ text_in (form_of field) (number_in field x.now)) }
{
    match field {
        Field::EthSrc | Field::EthDst => write_mac(x.get(field), into),
        Field::Ipv4Src | Field::Ipv4Dst => write_ipv4(x.get(field), into),
        Field::Ipv6Src => write_ipv6(x.ipv6_src, into),
        Field::Ipv6Dst => write_ipv6(x.ipv6_dst, into),
        _ => write_decimal(x.get(field), into),
    }
}

/// Appends a field's name, `=`, and the packet's number in it.
fn write_field(field: Field, x: &Packet, into: &mut Vec<u8>) -> Result<(), AllocError>
    ensures { OnOk result (into.new.items ≡ into.old.items ++ field_text x.now field) }
{
    into.extend_from_slice(field_name(field))?;
    into.push(b'=')?;
    write_number(field, x, into)
}

/// Appends a space and the field for each of the fields that the packet has.
fn write_further(fields: &[Field], x: &Packet, into: &mut Vec<u8>) -> Result<(), AllocError>
    ensures { OnOk result (into.new.items
        ≡ into.old.items
        ++ flat_map (λ f. codes " " ++ field_text x.now f) (filter (λ f. has_field f x.now) fields.now)) }
{
    for field in fields {
        if has(*field, x) {
            into.push(b' ')?;
            write_field(*field, x, into)?;
        }
    }
    Ok(())
}

/// Appends the fields that the packet has, in field order, joined by one space.
#[tactic(auto, unfolding(crate::specs::States::packet_text))]
pub(crate) fn write_packet(x: &Packet, into: &mut Vec<u8>) -> Result<(), AllocError>
    ensures { OnOk result (into.new.items ≡ into.old.items ++ packet_text x.now) }
{
    write_field(Field::Switch, x, into)?;
    write_further(&FURTHER_FIELDS, x, into)
}
