//! The matches on the two sides of a test.
ghost use Rattle.std.specs.Prelude.{◌≡◌, ◌<◌, ◌^◌, ◌-◌, IfSome, Some};
ghost use Rattle.pq_fields.specs.Packet.{width_of};
ghost use Rattle.pq_model.specs.MatchFields.{IsLawfulMatch, IsMasked};
ghost use Rattle.pq_store.specs.Test.{IsLawful};
ghost use Rattle.pq_layout.specs.Entries.{failing, passing, stated_with, with_bit, with_number};

use pq_fields::Field;
use pq_model::Match;
use pq_store::Test;

/// The match of the packets that pass the test, too.
pub(crate) fn passing(test: Test, matching: &Match) -> Match
    requires test { IsLawful test }
    requires lawful { IsLawfulMatch (passing test matching.now) }
    ensures { result ≡ passing test matching.now }
{
    match test {
        Test::Equal(field, value) => with_number(matching, field, value),
        Test::Bit(field, index) => with_bit(matching, field, index, true),
    }
}

/// The match of the packets that fail the test, too, if there is one: a number is not matched on the side of others.
pub(crate) fn failing(test: Test, matching: &Match) -> Match
    requires test { IsLawful test }
    requires lawful { IsLawfulMatch (failing test matching.now) }
    ensures { result ≡ failing test matching.now }
{
    match test {
        Test::Equal(_, _) => *matching,
        Test::Bit(field, index) => with_bit(matching, field, index, false),
    }
}

/// The match that states the number of the field, too.
fn with_number(matching: &Match, field: Field, value: u64) -> Match
    requires lawful { IsLawfulMatch (with_number field value matching.now) }
    ensures { result ≡ with_number field value matching.now }
{
    let mut stated = *matching;
    match field {
        Field::Port => stated.in_port = Some(value as u32),
        Field::EthType => stated.eth_type = Some(value as u16),
        Field::IpProto => stated.ip_proto = Some(value as u8),
        Field::EthSrc => stated.eth_src = Some(value),
        Field::EthDst => stated.eth_dst = Some(value),
        Field::TcpSrc => stated.tcp_src = Some(value as u16),
        Field::TcpDst => stated.tcp_dst = Some(value as u16),
        Field::UdpSrc => stated.udp_src = Some(value as u16),
        Field::UdpDst => stated.udp_dst = Some(value as u16),
        _ => {}
    }
    stated
}

/// The match that states the bit of the address at this place, too.
fn with_bit(matching: &Match, field: Field, index: u8, bit: bool) -> Match
    requires within { index < width_of field }
    requires lawful { IsLawfulMatch (with_bit field index bit matching.now) }
    ensures { result ≡ with_bit field index bit matching.now }
{
    let mut stated = *matching;
    match field {
        Field::Ipv4Src => stated.ipv4_src = Some(narrow_with(matching.ipv4_src, index, bit)),
        Field::Ipv4Dst => stated.ipv4_dst = Some(narrow_with(matching.ipv4_dst, index, bit)),
        Field::Ipv6Src => stated.ipv6_src = Some(wide_with(matching.ipv6_src, index, bit)),
        Field::Ipv6Dst => stated.ipv6_dst = Some(wide_with(matching.ipv6_dst, index, bit)),
        _ => {}
    }
    stated
}

/// Value and mask of an IPv4 address with the bit at this place, 0 being the highest.
fn narrow_with(stated: Option<(u32, u32)>, index: u8, bit: bool) -> (u32, u32)
    requires within { index < 32 }
    requires masked { IfSome (stated_with (2 ^ (31 - index)) bit stated) (IsMasked 32) }
    ensures { Some result ≡ stated_with (2 ^ (31 - index)) bit stated }
{
    let weight = 1u32 << (31 - index);
    let (value, mask) = match stated {
        None => (0, 0),
        Some(pair) => pair,
    };
    if bit {
        return (value + weight, mask + weight);
    }
    (value, mask + weight)
}

/// Value and mask of an IPv6 address with the bit at this place, 0 being the highest.
fn wide_with(stated: Option<(u128, u128)>, index: u8, bit: bool) -> (u128, u128)
    requires within { index < 128 }
    requires masked { IfSome (stated_with (2 ^ (127 - index)) bit stated) (IsMasked 128) }
    ensures { Some result ≡ stated_with (2 ^ (127 - index)) bit stated }
{
    let weight = 1u128 << (127 - index);
    let (value, mask) = match stated {
        None => (0, 0),
        Some(pair) => pair,
    };
    if bit {
        return (value + weight, mask + weight);
    }
    (value, mask + weight)
}
