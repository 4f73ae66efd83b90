//! Addresses, as numbers.
ghost use Rattle.std.specs.Prelude.{◌≡◌, ◌<◌, ◌≤◌, ◌^◌, true, length, IfSome};
ghost use Rattle.pq_term.specs.Groups.{parts};
ghost use Rattle.pq_term.specs.Numbers.{value_of};
ghost use Rattle.pq_term.specs.Addresses.{groups_value, spell_digits, mac_of, ipv4_of, ipv6_of};

use crate::cut::cut_at;
use crate::forms::{is_ipv4, is_ipv6_address, is_mac};
use crate::numbers::value_of;

/// The value of a group of digits, which spells a digit to the base `weight`.
fn group_value(weight: u64, base: u64, group: &[u8]) -> u64
    requires base { 0 < base }
    requires small { value_of base group.now < weight }
    ensures { result ≡ value_of base group.now }
{
    match value_of(base, group) {
        Some(value) => value,
        None => unreachable!(),
    }
}

/// The number whose digits to the base `weight` are spelled by the groups of digits between separators.
fn groups_value(separator: u8, weight: u64, base: u64, text: &[u8]) -> u128
    requires base { 0 < base }
    requires small { spell_digits weight base (parts separator text.now) ≡ true }
    requires few { weight ^ length (parts separator text.now) ≤ 2 ^ 128 }
    ensures value { result ≡ groups_value weight base (parts separator text.now) }
    ensures below { result < weight ^ length (parts separator text.now) }
{
    let mut value: u128 = 0;
    let mut left = Some(text);
    while let Some(groups) = left {
        let (group, behind) = cut_at(separator, groups);
        value = value * u128::from(weight) + u128::from(group_value(weight, base, group));
        left = behind;
    }
    value
}

/// The number of a MAC address, six groups of two hexadecimal digits in either case joined by `:`; `None` where the
/// text is none.
#[tactic(auto, using(crate::proofs::GroupValues::mac_groups))]
pub fn mac_value(text: &[u8]) -> Option<u64>
    ensures value { result ≡ mac_of text.now }
    ensures fits { IfSome result (λ n. n < 2 ^ 48) }
{
    if is_mac(text) {
        Some(groups_value(b':', 256, 16, text) as u64)
    } else {
        None
    }
}

/// The number of an IPv4 address, four numbers up to 255 without leading zeros joined by `.`; `None` where the text
/// is none.
#[tactic(auto, using(crate::proofs::GroupValues::ipv4_groups))]
pub fn ipv4_value(text: &[u8]) -> Option<u32>
    ensures { result ≡ ipv4_of text.now }
{
    if is_ipv4(text) {
        Some(groups_value(b'.', 256, 10, text) as u32)
    } else {
        None
    }
}

/// The number of an IPv6 address, eight groups of one to four hexadecimal digits in either case joined by `:`;
/// `None` where the text is none, or has the length of a prefix.
#[tactic(auto, using(crate::proofs::GroupValues::ipv6_groups))]
pub fn ipv6_value(text: &[u8]) -> Option<u128>
    ensures { result ≡ ipv6_of text.now }
{
    if is_ipv6_address(text) {
        Some(groups_value(b':', 65536, 16, text))
    } else {
        None
    }
}
