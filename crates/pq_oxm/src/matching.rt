ghost use Rattle.std.specs.Prelude.{◌≡◌, ◌++◌, IfOk, OnOk, OnErr};
ghost use Rattle.pq_model.specs.MatchFields.{IsLawfulMatch};
ghost use Rattle.pq_model.specs.Spelling.{match_bytes, match_oxms};

use crate::bytes::{padding, write_length, write_zeros};
use crate::oxm_field;
use crate::stated::{write_byte, write_ipv4, write_ipv6, write_mac, write_u16, write_u32};
use pq_model::Match;
use std::alloc::{AllocError, Global};

// The room for a spelling to begin with, in bytes: a match of five fields needs no more.
const ROOM: usize = 64;

// The OXM fields of a match, in their fixed order.
#[tactic(auto, unfolding(pq_model::specs::Spelling::match_oxms))]
fn oxms(alloc: Global, value: &Match) -> Result<Vec<u8>, AllocError>
    ensures { IfOk result (λ bytes. bytes.items ≡ match_oxms value.now) }
{
    let mut bytes = Vec::with_capacity(alloc, ROOM)?;
    write_u32(oxm_field::IN_PORT, value.in_port, &mut bytes)?;
    write_u16(oxm_field::VLAN_VID, value.vlan, &mut bytes)?;
    write_u16(oxm_field::ETH_TYPE, value.eth_type, &mut bytes)?;
    write_byte(oxm_field::IP_PROTO, value.ip_proto, &mut bytes)?;
    write_mac(oxm_field::ETH_SRC, value.eth_src, &mut bytes)?;
    write_mac(oxm_field::ETH_DST, value.eth_dst, &mut bytes)?;
    write_ipv4(oxm_field::IPV4_SRC, value.ipv4_src, &mut bytes)?;
    write_ipv4(oxm_field::IPV4_DST, value.ipv4_dst, &mut bytes)?;
    write_u16(oxm_field::TCP_SRC, value.tcp_src, &mut bytes)?;
    write_u16(oxm_field::TCP_DST, value.tcp_dst, &mut bytes)?;
    write_u16(oxm_field::UDP_SRC, value.udp_src, &mut bytes)?;
    write_u16(oxm_field::UDP_DST, value.udp_dst, &mut bytes)?;
    write_ipv6(oxm_field::IPV6_SRC, value.ipv6_src, &mut bytes)?;
    write_ipv6(oxm_field::IPV6_DST, value.ipv6_dst, &mut bytes)?;
    Ok(bytes)
}

// A match of type OXM with its length, its fields and its padding.
#[tactic(auto, unfolding(pq_model::specs::Spelling::match_bytes))]
pub fn spelling(alloc: Global, value: &Match) -> Result<Vec<u8>, AllocError>
    ensures { IfOk result (λ bytes. bytes.items ≡ match_bytes value.now) }
{
    let oxms = oxms(alloc, value)?;
    let mut bytes = Vec::with_capacity(alloc, ROOM)?;
    bytes.extend_from_slice(&[0, 1])?;
    write_length(4 + oxms.len(), &mut bytes)?;
    bytes.extend_from_slice(&oxms)?;
    write_zeros(padding(bytes.len()), &mut bytes)?;
    Ok(bytes)
}

/// Appends the spelling of a match: type 1, its length without the padding, its fields in their
/// fixed order, and zeros up to a multiple of eight bytes (OpenFlow 1.3.5, section 7.2.3). Where
/// there is no memory for it `into` is as before.
pub fn write_match(alloc: Global, value: &Match, into: &mut Vec<u8>) -> Result<(), AllocError>
    ensures ok { OnOk result (into.new.items ≡ into.old.items ++ match_bytes value.now) }
    ensures err { OnErr result (into.new.items ≡ into.old.items) }
{
    let spelling = spelling(alloc, value)?;
    into.extend_from_slice(&spelling)
}

/// The numbers of a match fit their fields, and each field has its prerequisites. It does nothing
/// when it runs: a caller that holds a match after a reference calls `keeps_rules(*value)` to know
/// this of it.
pub fn keeps_rules(value: Match)
    ensures { IsLawfulMatch value }
{}
