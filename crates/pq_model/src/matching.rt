use std::marker::Model;

/// The match of a flow entry (OpenFlow 1.3.5, section 7.2.3): each field that is stated has to agree.
///
/// A match always keeps the standard's prerequisites: `ip_proto` only beside the `eth_type` of IPv4 or IPv6, the
/// IPv4 addresses beside that of IPv4, the IPv6 addresses beside that of IPv6, the TCP ports beside `ip_proto` 6 and
/// the UDP ports beside 17.
#[derive(Clone, Copy, Debug)]
pub struct Match {
    /// The arriving port, 1 to 0xffffff00.
    pub in_port: Option<u32>,
    /// The VLAN_VID word: 0 for a packet without a VLAN header, or 0x1000 and a VLAN number from 1 to 4094 together.
    pub vlan: Option<u16>,
    pub eth_type: Option<u16>,
    pub ip_proto: Option<u8>,
    /// 48 bits.
    pub eth_src: Option<u64>,
    /// 48 bits.
    pub eth_dst: Option<u64>,
    /// Value and mask; the value has no bit outside the mask, and the mask is not 0.
    pub ipv4_src: Option<(u32, u32)>,
    /// As `ipv4_src`.
    pub ipv4_dst: Option<(u32, u32)>,
    pub tcp_src: Option<u16>,
    pub tcp_dst: Option<u16>,
    pub udp_src: Option<u16>,
    pub udp_dst: Option<u16>,
    /// As `ipv4_src`, with 128 bits.
    pub ipv6_src: Option<(u128, u128)>,
    /// As `ipv6_src`.
    pub ipv6_dst: Option<(u128, u128)>,
}

impl Model for Match {
    ghost use Rattle.pq_model.specs.MatchFields.{MatchFields, IsLawfulMatch};

    ghost Value = { MatchFields };

    ghost view = { λ m. record { in_port = m.in_port; vlan = m.vlan; eth_type = m.eth_type; ip_proto = m.ip_proto; eth_src = m.eth_src; eth_dst = m.eth_dst; ipv4_src = m.ipv4_src; ipv4_dst = m.ipv4_dst; tcp_src = m.tcp_src; tcp_dst = m.tcp_dst; udp_src = m.udp_src; udp_dst = m.udp_dst; ipv6_src = m.ipv6_src; ipv6_dst = m.ipv6_dst } };

    ghost inverse = { λ m. record { in_port = m.in_port; vlan = m.vlan; eth_type = m.eth_type; ip_proto = m.ip_proto; eth_src = m.eth_src; eth_dst = m.eth_dst; ipv4_src = m.ipv4_src; ipv4_dst = m.ipv4_dst; tcp_src = m.tcp_src; tcp_dst = m.tcp_dst; udp_src = m.udp_src; udp_dst = m.udp_dst; ipv6_src = m.ipv6_src; ipv6_dst = m.ipv6_dst } };

    ghost invariant = { λ m. IsLawfulMatch (record { in_port = m.in_port; vlan = m.vlan; eth_type = m.eth_type; ip_proto = m.ip_proto; eth_src = m.eth_src; eth_dst = m.eth_dst; ipv4_src = m.ipv4_src; ipv4_dst = m.ipv4_dst; tcp_src = m.tcp_src; tcp_dst = m.tcp_dst; udp_src = m.udp_src; udp_dst = m.udp_dst; ipv6_src = m.ipv6_src; ipv6_dst = m.ipv6_dst }) };
}
