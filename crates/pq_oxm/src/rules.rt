ghost use Rattle.std.specs.Prelude.{◌≡◌, ◌↔◌, ◌<◌, ◌^◌, ◌⊎◌, IfSome, IsTrue};
ghost use Rattle.std.specs.declared.option.Option.TheVariants.{Some};
ghost use Rattle.pq_model.specs.MatchFields.{
  IsLawfulMatch,
  IsMasked,
  IsPortNumber,
  IsTagWord,
};
ghost use Rattle.pq_fields.specs.declared.protocols.TheConstants.{IPV4, IPV6};

use crate::fields::Fields;
use pq_fields::{IPV4, IPV6, TCP, UDP};
use pq_model::{LAST_PORT, Match};

// A port is one that a switch may have (OpenFlow 1.3.5, section 7.2.1).
fn is_in_port(value: Option<u32>) -> bool
    ensures { IsTrue result ↔ IfSome value IsPortNumber }
{
    match value {
        None => true,
        Some(port) => 1 <= port && port <= LAST_PORT,
    }
}

// A VLAN_VID word says that there is no header, or has the bit of a header and a number from 1 to 4094.
fn is_vlan(value: Option<u16>) -> bool
    ensures { IsTrue result ↔ IfSome value (λ w. (w ≡ 0) ⊎ IsTagWord w) }
{
    match value {
        None => true,
        Some(word) => word == 0 || (0x1001 <= word && word <= 0x1ffe),
    }
}

// A MAC address has 48 bits.
fn is_mac(value: Option<u64>) -> bool
    ensures { IsTrue result ↔ IfSome value (λ n. n < 2 ^ 48) }
{
    match value {
        None => true,
        Some(address) => address < 0x1_0000_0000_0000,
    }
}

// An IP protocol is beside the Ethernet type of IPv4 or IPv6.
fn is_ip_proto(value: Option<u8>, eth_type: Option<u16>) -> bool
    ensures { IsTrue result ↔ IfSome value (λ n. (n < 2 ^ 8) × ((eth_type ≡ Some IPV4) ⊎ (eth_type ≡ Some IPV6))) }
{
    match (value, eth_type) {
        (None, _) => true,
        (Some(_), Some(number)) => u64::from(number) == IPV4 || u64::from(number) == IPV6,
        (Some(_), None) => false,
    }
}

// An IPv4 address is beside the Ethernet type of IPv4. Its mask has a one, and it has none outside it.
fn is_ipv4(value: Option<(u32, u32)>, eth_type: Option<u16>) -> bool
    ensures { IsTrue result ↔ IfSome value (λ a. IsMasked 32 a × (eth_type ≡ Some IPV4)) }
{
    match (value, eth_type) {
        (None, _) => true,
        (Some((address, mask)), Some(number)) => {
            mask != 0 && address & mask == address && u64::from(number) == IPV4
        }
        (Some(_), None) => false,
    }
}

// An IPv6 address is beside the Ethernet type of IPv6. Its mask has a one, and it has none outside it.
fn is_ipv6(value: Option<(u128, u128)>, eth_type: Option<u16>) -> bool
    ensures { IsTrue result ↔ IfSome value (λ a. IsMasked 128 a × (eth_type ≡ Some IPV6)) }
{
    match (value, eth_type) {
        (None, _) => true,
        (Some((address, mask)), Some(number)) => {
            mask != 0 && address & mask == address && u64::from(number) == IPV6
        }
        (Some(_), None) => false,
    }
}

// A port of TCP or UDP is beside its IP protocol.
fn is_port_of(value: Option<u16>, ip_proto: Option<u8>, protocol: u64) -> bool
    ensures { IsTrue result ↔ IfSome value (λ n. (n < 2 ^ 16) × (ip_proto ≡ Some protocol)) }
{
    match (value, ip_proto) {
        (None, _) => true,
        (Some(_), Some(number)) => u64::from(number) == protocol,
        (Some(_), None) => false,
    }
}

// Whether the fields keep the rules on a match.
fn are_lawful(fields: Fields) -> bool
    ensures { IsTrue result ↔ IsLawfulMatch fields }
{
    if !is_in_port(fields.in_port) {
        return false;
    }
    if !is_vlan(fields.vlan) {
        return false;
    }
    if !is_ip_proto(fields.ip_proto, fields.eth_type) {
        return false;
    }
    if !is_mac(fields.eth_src) {
        return false;
    }
    if !is_mac(fields.eth_dst) {
        return false;
    }
    if !is_ipv4(fields.ipv4_src, fields.eth_type) {
        return false;
    }
    if !is_ipv4(fields.ipv4_dst, fields.eth_type) {
        return false;
    }
    if !is_port_of(fields.tcp_src, fields.ip_proto, TCP) {
        return false;
    }
    if !is_port_of(fields.tcp_dst, fields.ip_proto, TCP) {
        return false;
    }
    if !is_port_of(fields.udp_src, fields.ip_proto, UDP) {
        return false;
    }
    if !is_port_of(fields.udp_dst, fields.ip_proto, UDP) {
        return false;
    }
    if !is_ipv6(fields.ipv6_src, fields.eth_type) {
        return false;
    }
    is_ipv6(fields.ipv6_dst, fields.eth_type)
}

/// The match that states the fields, where they keep the rules on a match.
pub fn lawful(fields: Fields) -> Option<Match>
    ensures whole { IsLawfulMatch fields → result ≡ Some fields }
    ensures same { IfSome result (λ m. m ≡ fields) }
{
    if !are_lawful(fields) {
        return None;
    }
    Some(Match {
        in_port: fields.in_port,
        vlan: fields.vlan,
        eth_type: fields.eth_type,
        ip_proto: fields.ip_proto,
        eth_src: fields.eth_src,
        eth_dst: fields.eth_dst,
        ipv4_src: fields.ipv4_src,
        ipv4_dst: fields.ipv4_dst,
        tcp_src: fields.tcp_src,
        tcp_dst: fields.tcp_dst,
        udp_src: fields.udp_src,
        udp_dst: fields.udp_dst,
        ipv6_src: fields.ipv6_src,
        ipv6_dst: fields.ipv6_dst,
    })
}
