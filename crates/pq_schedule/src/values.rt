//! The numbers of fields, as a line of a schedule states them.
ghost use Rattle.std.specs.Prelude.{◌≡◌, ◌-◌, ◌^◌, false, option_map};
ghost use Rattle.std.specs.List.{list_all, list_any};
ghost use Rattle.std.specs.Char.{is_ascii_uppercase};
ghost use Rattle.pq_fields.specs.Packet.{is_wide, width_of, with_number};
ghost use Rattle.pq_term.specs.Groups.{parts};
ghost use Rattle.pq_schedule.specs.Values.{field_number, is_shortest, short_ipv6_of};

use pq_fields::{Field, Packet, width};
use pq_term::{decimal_value, ipv4_value, ipv6_value, mac_value};

/// Whether no letter is upper case, and only `0` itself begins with a zero.
fn is_shortest(group: &[u8]) -> bool
    ensures { result ≡ is_shortest group.now }
{
    match group {
        [] => false,
        [first, rest @ ..] => !has_upper_case(group) && (*first != b'0' || rest.is_empty()),
    }
}

fn has_upper_case(group: &[u8]) -> bool
    ensures { result ≡ list_any is_ascii_uppercase group.now }
{
    group.iter().any(|byte| byte.is_ascii_uppercase())
}

fn are_shortest(text: &[u8]) -> bool
    ensures { result ≡ list_all is_shortest (parts 58 text.now) }
{
    text.split(|byte| *byte == b':')
        .all(|group| is_shortest(group))
}

/// The number of an IPv6 address whose groups are lower-case digits without leading zeros.
fn short_ipv6_value(text: &[u8]) -> Option<u128>
    ensures { result ≡ short_ipv6_of text.now }
{
    if are_shortest(text) {
        ipv6_value(text)
    } else {
        None
    }
}

/// The greatest number of a field that is not an IPv6 address.
fn greatest(field: Field) -> u64
    requires { is_wide field ≡ false }
    ensures { result ≡ 2 ^ width_of field - 1 }
{
    u64::MAX >> (64 - width(field))
}

/// The packet with the number that the text states for the field; `None` where the text states none.
pub(crate) fn with_field(packet: Packet, field: Field, text: &[u8]) -> Option<Packet>
    ensures { result ≡ option_map (λ n. with_number field n packet) (field_number field text.now) }
{
    match field {
        Field::EthSrc | Field::EthDst => Some(packet.with(field, mac_value(text)?)),
        Field::Ipv4Src | Field::Ipv4Dst => {
            Some(packet.with(field, u64::from(ipv4_value(text)?)))
        }
        Field::Ipv6Src | Field::Ipv6Dst => Some(packet.with_wide(field, short_ipv6_value(text)?)),
        _ => Some(packet.with(field, decimal_value(greatest(field), text)?)),
    }
}
