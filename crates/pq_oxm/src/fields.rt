ghost use Rattle.std.specs.Prelude.{◌≡◌};
ghost use Rattle.pq_oxm.specs.Reading.{fields_of};

use crate::next::{next_byte, next_ipv4, next_ipv6, next_mac, next_u16, next_u32};
use crate::oxm_field;
use std::marker::Model;

/// What the OXM fields of a match say, before it is known whether they keep the rules on a match.
#[derive(Clone, Copy)]
pub struct Fields {
    pub in_port: Option<u32>,
    pub vlan: Option<u16>,
    pub eth_type: Option<u16>,
    pub ip_proto: Option<u8>,
    pub eth_src: Option<u64>,
    pub eth_dst: Option<u64>,
    pub ipv4_src: Option<(u32, u32)>,
    pub ipv4_dst: Option<(u32, u32)>,
    pub tcp_src: Option<u16>,
    pub tcp_dst: Option<u16>,
    pub udp_src: Option<u16>,
    pub udp_dst: Option<u16>,
    pub ipv6_src: Option<(u128, u128)>,
    pub ipv6_dst: Option<(u128, u128)>,
}

impl Model for Fields {
    ghost use Rattle.pq_model.specs.MatchFields.{MatchFields};

    ghost Value = { MatchFields };

    ghost view = { λ m. record { in_port = m.in_port; vlan = m.vlan; eth_type = m.eth_type; ip_proto = m.ip_proto; eth_src = m.eth_src; eth_dst = m.eth_dst; ipv4_src = m.ipv4_src; ipv4_dst = m.ipv4_dst; tcp_src = m.tcp_src; tcp_dst = m.tcp_dst; udp_src = m.udp_src; udp_dst = m.udp_dst; ipv6_src = m.ipv6_src; ipv6_dst = m.ipv6_dst } };

    ghost inverse = { λ m. record { in_port = m.in_port; vlan = m.vlan; eth_type = m.eth_type; ip_proto = m.ip_proto; eth_src = m.eth_src; eth_dst = m.eth_dst; ipv4_src = m.ipv4_src; ipv4_dst = m.ipv4_dst; tcp_src = m.tcp_src; tcp_dst = m.tcp_dst; udp_src = m.udp_src; udp_dst = m.udp_dst; ipv6_src = m.ipv6_src; ipv6_dst = m.ipv6_dst } };
}

/// What OXM fields say, read in their fixed order; one that is missing at its place is not stated.
#[tactic(auto, unfolding(crate::specs::Reading::fields_of))]
pub fn fields_of(oxms: &[u8]) -> Fields
    ensures { result ≡ fields_of oxms.now }
{
    let (in_port, rest) = next_u32(oxm_field::IN_PORT, oxms);
    let (vlan, rest) = next_u16(oxm_field::VLAN_VID, rest);
    let (eth_type, rest) = next_u16(oxm_field::ETH_TYPE, rest);
    let (ip_proto, rest) = next_byte(oxm_field::IP_PROTO, rest);
    let (eth_src, rest) = next_mac(oxm_field::ETH_SRC, rest);
    let (eth_dst, rest) = next_mac(oxm_field::ETH_DST, rest);
    let (ipv4_src, rest) = next_ipv4(oxm_field::IPV4_SRC, rest);
    let (ipv4_dst, rest) = next_ipv4(oxm_field::IPV4_DST, rest);
    let (tcp_src, rest) = next_u16(oxm_field::TCP_SRC, rest);
    let (tcp_dst, rest) = next_u16(oxm_field::TCP_DST, rest);
    let (udp_src, rest) = next_u16(oxm_field::UDP_SRC, rest);
    let (udp_dst, rest) = next_u16(oxm_field::UDP_DST, rest);
    let (ipv6_src, rest) = next_ipv6(oxm_field::IPV6_SRC, rest);
    let (ipv6_dst, _) = next_ipv6(oxm_field::IPV6_DST, rest);
    Fields {
        in_port,
        vlan,
        eth_type,
        ip_proto,
        eth_src,
        eth_dst,
        ipv4_src,
        ipv4_dst,
        tcp_src,
        tcp_dst,
        udp_src,
        udp_dst,
        ipv6_src,
        ipv6_dst,
    }
}
