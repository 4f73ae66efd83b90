ghost use Rattle.std.specs.Prelude.{◌≡◌, ◌<◌, ◌^◌, false, true};
ghost use Rattle.pq_fields.specs.Packet.{
  Fit,
  bit_in,
  is_wide,
  number_in,
  width_of,
  with_number,
  zero_packet,
};

use crate::field::Field;
use crate::widths::width;
use std::marker::Model;

/// A packet: fourteen numbers, each within the width of its field.
///
/// Packets are ordered by their numbers in field order: the first field that differs decides.
#[derive(Clone, Copy, Debug, PartialEq, Eq, PartialOrd, Ord, Hash)]
pub struct Packet {
    pub switch: u64,
    pub port: u64,
    pub eth_type: u64,
    pub ip_proto: u64,
    pub eth_src: u64,
    pub eth_dst: u64,
    pub ipv4_src: u64,
    pub ipv4_dst: u64,
    pub tcp_src: u64,
    pub tcp_dst: u64,
    pub udp_src: u64,
    pub udp_dst: u64,
    pub ipv6_src: u128,
    pub ipv6_dst: u128,
}

impl Model for Packet {
    ghost use Rattle.pq_fields.specs.Packet.{Numbers, Fit};

    ghost Value = { Numbers };

    ghost use Rattle.pq_fields.specs.Stored.{stored, stored_numbers};

    ghost view = { stored_numbers };

    ghost invariant = { λ p. Fit (stored_numbers p) };

    ghost inverse = { stored };
}

impl Packet {
    /// The packet whose fourteen numbers are 0.
    pub fn zero() -> Packet
        ensures { result ≡ zero_packet }
    {
        Packet {
            switch: 0,
            port: 0,
            eth_type: 0,
            ip_proto: 0,
            eth_src: 0,
            eth_dst: 0,
            ipv4_src: 0,
            ipv4_dst: 0,
            tcp_src: 0,
            tcp_dst: 0,
            udp_src: 0,
            udp_dst: 0,
            ipv6_src: 0,
            ipv6_dst: 0,
        }
    }

    /// The number in a field that is not an IPv6 address.
    pub fn get(&self, field: Field) -> u64
        requires { is_wide field ≡ false }
        ensures { result ≡ number_in field self.now }
    {
        match field {
            Field::Switch => self.switch,
            Field::Port => self.port,
            Field::EthType => self.eth_type,
            Field::IpProto => self.ip_proto,
            Field::EthSrc => self.eth_src,
            Field::EthDst => self.eth_dst,
            Field::Ipv4Src => self.ipv4_src,
            Field::Ipv4Dst => self.ipv4_dst,
            Field::TcpSrc => self.tcp_src,
            Field::TcpDst => self.tcp_dst,
            Field::UdpSrc => self.udp_src,
            Field::UdpDst => self.udp_dst,
            Field::Ipv6Src | Field::Ipv6Dst => unreachable!(),
        }
    }

    /// A field's number, whatever its width.
    pub(crate) fn number(&self, field: Field) -> u128
        ensures { result ≡ number_in field self.now }
    {
        match field {
            Field::Ipv6Src => self.ipv6_src,
            Field::Ipv6Dst => self.ipv6_dst,
            _ => u128::from(self.get(field)),
        }
    }

    /// The bit of a field's number at a place, 0 being the highest; the place is below the width.
    pub fn bit(&self, field: Field, index: u8) -> bool
        requires { index < width_of field }
        ensures { result ≡ bit_in field index self.now }
    {
        (self.number(field) >> (width(field) - 1 - u32::from(index))) % 2 == 1
    }

    /// The packet with `value` in a field that is not an IPv6 address; `value` fits the field's width.
    pub fn with(mut self, field: Field, value: u64) -> Packet
        requires fits { value < 2 ^ width_of field }
        requires narrow { is_wide field ≡ false }
        ensures { result ≡ with_number field value self }
    {
        match field {
            Field::Switch => self.switch = value,
            Field::Port => self.port = value,
            Field::EthType => self.eth_type = value,
            Field::IpProto => self.ip_proto = value,
            Field::EthSrc => self.eth_src = value,
            Field::EthDst => self.eth_dst = value,
            Field::Ipv4Src => self.ipv4_src = value,
            Field::Ipv4Dst => self.ipv4_dst = value,
            Field::TcpSrc => self.tcp_src = value,
            Field::TcpDst => self.tcp_dst = value,
            Field::UdpSrc => self.udp_src = value,
            Field::UdpDst => self.udp_dst = value,
            Field::Ipv6Src | Field::Ipv6Dst => unreachable!(),
        }
        self
    }

    /// The packet with `value` in a field that is an IPv6 address.
    pub fn with_wide(mut self, field: Field, value: u128) -> Packet
        requires { is_wide field ≡ true }
        ensures { result ≡ with_number field value self }
    {
        match field {
            Field::Ipv6Src => self.ipv6_src = value,
            Field::Ipv6Dst => self.ipv6_dst = value,
            _ => unreachable!(),
        }
        self
    }
}

/// Each number of a packet fits the width of its field. It does nothing when it runs: a caller that
/// holds a packet after a reference calls `fits(*x)` to know this of it.
pub fn fits(x: Packet)
    ensures { Fit x }
{}
