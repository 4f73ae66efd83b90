ghost use Rattle.std.specs.Prelude.{◌≡◌};
ghost use Rattle.pq_model.specs.MatchFields.{vlan_word};
ghost use Rattle.pq_switch.specs.Patterns.{mask_of, pattern_of, projected, seen, seen_masked, shape_of};

use pq_fields::Packet;
use pq_model::Match;

/// What a match states: a number for each field, and for an address its mask too.
#[derive(Clone, Copy, PartialEq, Eq, PartialOrd, Ord)]
pub(crate) struct Pattern {
    pub(crate) in_port: Option<u64>,
    pub(crate) vlan: Option<u64>,
    eth_type: Option<u64>,
    ip_proto: Option<u64>,
    eth_src: Option<u64>,
    eth_dst: Option<u64>,
    ipv4_src: Option<(u64, u64)>,
    ipv4_dst: Option<(u64, u64)>,
    tcp_src: Option<u64>,
    tcp_dst: Option<u64>,
    udp_src: Option<u64>,
    udp_dst: Option<u64>,
    ipv6_src: Option<(u128, u128)>,
    ipv6_dst: Option<(u128, u128)>,
}

impl Pattern {
    /// No field.
    pub(crate) const NONE: Pattern = Pattern {
        in_port: None,
        vlan: None,
        eth_type: None,
        ip_proto: None,
        eth_src: None,
        eth_dst: None,
        ipv4_src: None,
        ipv4_dst: None,
        tcp_src: None,
        tcp_dst: None,
        udp_src: None,
        udp_dst: None,
        ipv6_src: None,
        ipv6_dst: None,
    };

    pub(crate) fn of(matching: &Match) -> Pattern
        ensures { result ≡ pattern_of matching.now }
    {
        Pattern {
            in_port: of_four_bytes(matching.in_port),
            vlan: of_two_bytes(matching.vlan),
            eth_type: of_two_bytes(matching.eth_type),
            ip_proto: of_byte(matching.ip_proto),
            eth_src: matching.eth_src,
            eth_dst: matching.eth_dst,
            ipv4_src: wide(matching.ipv4_src),
            ipv4_dst: wide(matching.ipv4_dst),
            tcp_src: of_two_bytes(matching.tcp_src),
            tcp_dst: of_two_bytes(matching.tcp_dst),
            udp_src: of_two_bytes(matching.udp_src),
            udp_dst: of_two_bytes(matching.udp_dst),
            ipv6_src: matching.ipv6_src,
            ipv6_dst: matching.ipv6_dst,
        }
    }

    /// The shape: the same fields with the number 0, and the same masks.
    pub(crate) fn shape(&self) -> Pattern
        ensures { result ≡ shape_of self.now }
    {
        Pattern {
            in_port: seen(self.in_port, 0),
            vlan: seen(self.vlan, 0),
            eth_type: seen(self.eth_type, 0),
            ip_proto: seen(self.ip_proto, 0),
            eth_src: seen(self.eth_src, 0),
            eth_dst: seen(self.eth_dst, 0),
            ipv4_src: mask_of(self.ipv4_src),
            ipv4_dst: mask_of(self.ipv4_dst),
            tcp_src: seen(self.tcp_src, 0),
            tcp_dst: seen(self.tcp_dst, 0),
            udp_src: seen(self.udp_src, 0),
            udp_dst: seen(self.udp_dst, 0),
            ipv6_src: wide_mask_of(self.ipv6_src),
            ipv6_dst: wide_mask_of(self.ipv6_dst),
        }
    }

    /// The same fields with the packet's numbers, under the same masks: a match covers a packet exactly where this is
    /// what it states.
    pub(crate) fn projected(&self, x: &Packet, vlan: Option<u16>) -> Pattern
        ensures { result ≡ projected self.now (record { packet = x.now; vlan = vlan }) }
    {
        Pattern {
            in_port: seen(self.in_port, x.port),
            vlan: seen(self.vlan, vlan_word(vlan)),
            eth_type: seen(self.eth_type, x.eth_type),
            ip_proto: seen(self.ip_proto, x.ip_proto),
            eth_src: seen(self.eth_src, x.eth_src),
            eth_dst: seen(self.eth_dst, x.eth_dst),
            ipv4_src: seen_masked(self.ipv4_src, x.ipv4_src),
            ipv4_dst: seen_masked(self.ipv4_dst, x.ipv4_dst),
            tcp_src: seen(self.tcp_src, x.tcp_src),
            tcp_dst: seen(self.tcp_dst, x.tcp_dst),
            udp_src: seen(self.udp_src, x.udp_src),
            udp_dst: seen(self.udp_dst, x.udp_dst),
            ipv6_src: wide_seen_masked(self.ipv6_src, x.ipv6_src),
            ipv6_dst: wide_seen_masked(self.ipv6_dst, x.ipv6_dst),
        }
    }
}

/// The VLAN_VID word of a packet: 0 without a header (OpenFlow 1.3.5, section 7.2.3.7).
pub(crate) fn vlan_word(vlan: Option<u16>) -> u64
    ensures { result ≡ vlan_word vlan }
{
    match vlan {
        Some(number) => 0x1000 + u64::from(number),
        None => 0,
    }
}

// The same number in more bytes.
fn of_byte(stated: Option<u8>) -> Option<u64>
    ensures { result ≡ stated }
{
    stated.map(u64::from)
}

// The same number in more bytes.
fn of_two_bytes(stated: Option<u16>) -> Option<u64>
    ensures { result ≡ stated }
{
    stated.map(u64::from)
}

// The same number in more bytes.
fn of_four_bytes(stated: Option<u32>) -> Option<u64>
    ensures { result ≡ stated }
{
    stated.map(u64::from)
}

// The same value and mask in more bytes.
fn wide(stated: Option<(u32, u32)>) -> Option<(u64, u64)>
    ensures { result ≡ stated }
{
    match stated {
        Some((value, mask)) => Some((u64::from(value), u64::from(mask))),
        None => None,
    }
}

// A number in the place of a stated one.
fn seen(stated: Option<u64>, number: u64) -> Option<u64>
    ensures { result ≡ seen stated number }
{
    match stated {
        Some(_) => Some(number),
        None => None,
    }
}

// What a number has under the mask of a stated one.
fn seen_masked(stated: Option<(u64, u64)>, number: u64) -> Option<(u64, u64)>
    ensures { result ≡ seen_masked stated number }
{
    match stated {
        Some((_, mask)) => Some((number & mask, mask)),
        None => None,
    }
}

// As `seen_masked`, with 128 bits.
fn wide_seen_masked(stated: Option<(u128, u128)>, number: u128) -> Option<(u128, u128)>
    ensures { result ≡ seen_masked stated number }
{
    match stated {
        Some((_, mask)) => Some((number & mask, mask)),
        None => None,
    }
}

// The mask alone.
fn mask_of(stated: Option<(u64, u64)>) -> Option<(u64, u64)>
    ensures { result ≡ mask_of stated }
{
    match stated {
        Some((_, mask)) => Some((0, mask)),
        None => None,
    }
}

// As `mask_of`, with 128 bits.
fn wide_mask_of(stated: Option<(u128, u128)>) -> Option<(u128, u128)>
    ensures { result ≡ mask_of stated }
{
    match stated {
        Some((_, mask)) => Some((0, mask)),
        None => None,
    }
}
