ghost use Rattle.std.specs.Prelude.{◌≡◌, ◌<◌, ◌^◌, ◌↔◌, IsTrue, true};
ghost use Rattle.std.specs.Option.{ForSome};
ghost use Rattle.std.specs.Cmp.Lexicographic.{slice_cmp};
ghost use Rattle.std.specs.Ordering.{nat_cmp};
ghost use Rattle.pq_fields.specs.declared.field.Field.{Field};
ghost use Rattle.pq_fields.specs.Order.{writes_cmp, writes_eq};
ghost use Rattle.pq_fields.specs.Packet.{has_field, width_of};
ghost use Rattle.pq_fields.specs.Writes.{
  Written,
  is_writable,
  no_writes,
  number_after,
  on,
  places,
  with_write,
  written_in,
};

use crate::field::Field;
use crate::packet::{Packet, fits};
use crate::presence::has;
use std::marker::Model;

/// Numbers to write into fields of a packet (the set-field actions of OpenFlow 1.3.5, section 5.12);
/// a field without a number stays as it is. Each number fits the width of its field.
///
/// Writes are ordered by their numbers in field order: the first field that differs decides, and no
/// number is below every number.
#[derive(Clone, Copy, Debug, PartialEq, Eq, PartialOrd, Ord, Hash)]
pub struct Writes {
    pub port: Option<u64>,
    pub eth_src: Option<u64>,
    pub eth_dst: Option<u64>,
    pub ipv4_src: Option<u64>,
    pub ipv4_dst: Option<u64>,
    pub tcp_src: Option<u64>,
    pub tcp_dst: Option<u64>,
    pub udp_src: Option<u64>,
    pub udp_dst: Option<u64>,
}

impl Model for Writes {
    ghost use Rattle.pq_fields.specs.Writes.{Written, AllFit};

    ghost Value = { Written };

    ghost use Rattle.pq_fields.specs.Stored.{stored_writes, numbers_to_write};

    ghost view = { numbers_to_write };

    ghost invariant = { λ w. AllFit (numbers_to_write w) };

    ghost inverse = { stored_writes };
}

impl Writes {
    /// Writes that change nothing.
    pub fn none() -> Writes
        ensures { result ≡ no_writes }
    {
        Writes {
            port: None,
            eth_src: None,
            eth_dst: None,
            ipv4_src: None,
            ipv4_dst: None,
            tcp_src: None,
            tcp_dst: None,
            udp_src: None,
            udp_dst: None,
        }
    }

    /// The number to write into a field, where there is one.
    pub fn get(&self, field: Field) -> Option<u64>
        ensures number { result ≡ written_in field self.now }
        ensures fits { ForSome result (λ n. n < 2 ^ width_of field) }
    {
        match field {
            Field::Port => self.port,
            Field::EthSrc => self.eth_src,
            Field::EthDst => self.eth_dst,
            Field::Ipv4Src => self.ipv4_src,
            Field::Ipv4Dst => self.ipv4_dst,
            Field::TcpSrc => self.tcp_src,
            Field::TcpDst => self.tcp_dst,
            Field::UdpSrc => self.udp_src,
            Field::UdpDst => self.udp_dst,
            _ => None,
        }
    }

    /// The same writes with `value` for this field; the field can be written, and `value` fits its width.
    pub fn set(mut self, field: Field, value: u64) -> Writes
        requires writable { is_writable field ≡ true }
        requires fits { value < 2 ^ width_of field }
        ensures { result ≡ with_write field value self }
    {
        match field {
            Field::Port => self.port = Some(value),
            Field::EthSrc => self.eth_src = Some(value),
            Field::EthDst => self.eth_dst = Some(value),
            Field::Ipv4Src => self.ipv4_src = Some(value),
            Field::Ipv4Dst => self.ipv4_dst = Some(value),
            Field::TcpSrc => self.tcp_src = Some(value),
            Field::TcpDst => self.tcp_dst = Some(value),
            Field::UdpSrc => self.udp_src = Some(value),
            Field::UdpDst => self.udp_dst = Some(value),
            _ => unreachable!(),
        }
        self
    }

    /// The packet with each written field that it has set to its number; all else stays, and so does
    /// which fields the packet has.
    pub fn on(&self, x: &Packet) -> Packet
        ensures packet { result ≡ on self.now x.now }
        ensures has { (f : Field) → has_field f result ≡ has_field f x.now }
    {
        Packet {
            port: self.number(Field::Port, x),
            eth_src: self.number(Field::EthSrc, x),
            eth_dst: self.number(Field::EthDst, x),
            ipv4_src: self.number(Field::Ipv4Src, x),
            ipv4_dst: self.number(Field::Ipv4Dst, x),
            tcp_src: self.number(Field::TcpSrc, x),
            tcp_dst: self.number(Field::TcpDst, x),
            udp_src: self.number(Field::UdpSrc, x),
            udp_dst: self.number(Field::UdpDst, x),
            ..*x
        }
    }

    /// The number that a field has after the writes.
    fn number(&self, field: Field, x: &Packet) -> u64
        requires { is_writable field ≡ true }
        ensures number { result ≡ number_after field self.now x.now }
        ensures fits { result < 2 ^ width_of field }
    {
        fits(*x);
        match self.get(field) {
            Some(value) if has(field, x) => value,
            _ => x.get(field),
        }
    }
}

/// Writes compare as their numbers do in field order, no number below every number, and writes that
/// are equal have the same numbers. It does nothing when it runs: a caller that sorts or compares
/// writes may call it to know this.
pub fn writes_are_ordered_by_numbers()
    ensures compares { (v w : Written) → writes_cmp v w ≡ slice_cmp nat_cmp (places v) (places w) }
    ensures equals { (v w : Written) → IsTrue (writes_eq v w) ↔ (v ≡ w) }
{}
