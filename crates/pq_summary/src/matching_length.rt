ghost use Rattle.std.specs.Prelude.{◌≡◌, ◌+◌, ◌≤◌};
ghost use Rattle.pq_model.specs.Spelling.{ones128, ones32, padding};
ghost use Rattle.pq_summary.specs.Lengths.{masked_length, match_length, oxms_length, stated_length};

use pq_model::Match;

/// How many bytes a field takes, where it is stated.
fn stated<T>(value: &Option<T>, size: usize) -> usize
    requires { size ≤ 16 }
    ensures value { result ≡ stated_length size value.now }
    ensures within { result ≤ 20 }
{
    match value {
        None => 0,
        Some(_) => 4 + size,
    }
}

/// How many bytes an IPv4 address takes, where it is stated; the mask of all ones is left out.
fn stated_ipv4(value: Option<(u32, u32)>) -> usize
    ensures value { result ≡ masked_length 4 ones32 value }
    ensures within { result ≤ 36 }
{
    match value {
        None => 0,
        Some((_, 0xffff_ffff)) => 8,
        Some(_) => 12,
    }
}

/// How many bytes an IPv6 address takes, where it is stated; the mask of all ones is left out.
fn stated_ipv6(value: Option<(u128, u128)>) -> usize
    ensures value { result ≡ masked_length 16 ones128 value }
    ensures within { result ≤ 36 }
{
    match value {
        None => 0,
        Some((_, mask)) => { if mask == u128::MAX { 20 } else { 36 } }
    }
}

/// How many bytes the fields of a match take.
#[tactic(auto, unfolding(crate::specs::Lengths::oxms_length))]
fn oxms_length(value: &Match) -> usize
    ensures value { result ≡ oxms_length value.now }
    ensures within { result ≤ 400 }
{
    stated(&value.in_port, 4)
        + stated(&value.vlan, 2)
        + stated(&value.eth_type, 2)
        + stated(&value.ip_proto, 1)
        + stated(&value.eth_src, 6)
        + stated(&value.eth_dst, 6)
        + stated_ipv4(value.ipv4_src)
        + stated_ipv4(value.ipv4_dst)
        + stated(&value.tcp_src, 2)
        + stated(&value.tcp_dst, 2)
        + stated(&value.udp_src, 2)
        + stated(&value.udp_dst, 2)
        + stated_ipv6(value.ipv6_src)
        + stated_ipv6(value.ipv6_dst)
}

/// How many zeros make a length a multiple of eight.
fn padding(length: usize) -> usize
    ensures value { result ≡ padding length }
    ensures within { result ≤ 7 }
{
    (8 - length % 8) % 8
}

/// How many bytes a match takes.
pub fn match_length(value: &Match) -> usize
    ensures value { result ≡ match_length value.now }
    ensures within { result ≤ 500 }
{
    let length = 4 + oxms_length(value);
    length + padding(length)
}
