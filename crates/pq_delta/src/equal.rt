//! Entries that are equal.
ghost use Rattle.std.specs.Prelude.{◌≡◌};
ghost use Rattle.pq_model.specs.MatchFields.{same_masked, same_match, same_number};
ghost use Rattle.pq_model.specs.SwitchMachine.{entry_of};
ghost use Rattle.pq_delta.specs.Equal.{same_actions, same_entry};

use pq_model::{Action, FlowMod, Match};

/// Whether the same number is stated, or none.
fn same_8(one: Option<u8>, other: Option<u8>) -> bool
    ensures { result ≡ same_number one other }
{
    match (one, other) {
        (None, None) => true,
        (Some(one), Some(other)) => one == other,
        _ => false,
    }
}

/// So of 16 bits.
fn same_16(one: Option<u16>, other: Option<u16>) -> bool
    ensures { result ≡ same_number one other }
{
    match (one, other) {
        (None, None) => true,
        (Some(one), Some(other)) => one == other,
        _ => false,
    }
}

/// So of 64 bits.
fn same_64(one: Option<u64>, other: Option<u64>) -> bool
    ensures { result ≡ same_number one other }
{
    match (one, other) {
        (None, None) => true,
        (Some(one), Some(other)) => one == other,
        _ => false,
    }
}

/// So of a port.
fn same_port(one: Option<u32>, other: Option<u32>) -> bool
    ensures { result ≡ same_number one other }
{
    match (one, other) {
        (None, None) => true,
        (Some(one), Some(other)) => one == other,
        _ => false,
    }
}

/// Whether the same IPv4 address with the same mask is stated, or none.
fn same_ipv4(one: Option<(u32, u32)>, other: Option<(u32, u32)>) -> bool
    ensures { result ≡ same_masked one other }
{
    match (one, other) {
        (None, None) => true,
        (Some(one), Some(other)) => one.0 == other.0 && one.1 == other.1,
        _ => false,
    }
}

/// So of an IPv6 address.
fn same_ipv6(one: Option<(u128, u128)>, other: Option<(u128, u128)>) -> bool
    ensures { result ≡ same_masked one other }
{
    match (one, other) {
        (None, None) => true,
        (Some(one), Some(other)) => one.0 == other.0 && one.1 == other.1,
        _ => false,
    }
}

/// Whether two matches state the same fields with the same numbers.
#[tactic(auto, unfolding(pq_model::specs::MatchFields::same_match))]
fn same_match(one: &Match, other: &Match) -> bool
    ensures { result ≡ same_match one.now other.now }
{
    same_port(one.in_port, other.in_port)
        && same_16(one.vlan, other.vlan)
        && same_16(one.eth_type, other.eth_type)
        && same_8(one.ip_proto, other.ip_proto)
        && same_64(one.eth_src, other.eth_src)
        && same_64(one.eth_dst, other.eth_dst)
        && same_ipv4(one.ipv4_src, other.ipv4_src)
        && same_ipv4(one.ipv4_dst, other.ipv4_dst)
        && same_16(one.tcp_src, other.tcp_src)
        && same_16(one.tcp_dst, other.tcp_dst)
        && same_16(one.udp_src, other.udp_src)
        && same_16(one.udp_dst, other.udp_dst)
        && same_ipv6(one.ipv6_src, other.ipv6_src)
        && same_ipv6(one.ipv6_dst, other.ipv6_dst)
}

/// Whether the actions are the same.
fn same_actions(one: &[Action], other: &[Action]) -> bool
    ensures { result ≡ same_actions one.now other.now }
{
    one == other
}

/// Whether two entries agree in all but their transaction ids.
#[tactic(auto, unfolding(crate::specs::Equal::same_entry))]
pub(crate) fn same_entry(one: &FlowMod, other: &FlowMod) -> bool
    ensures { result ≡ same_entry (entry_of one.now) (entry_of other.now) }
{
    one.table == other.table
        && one.priority == other.priority
        && same_match(&one.matching, &other.matching)
        && one.cookie == other.cookie
        && same_actions(&one.actions, &other.actions)
        && same_8(one.goto, other.goto)
}
