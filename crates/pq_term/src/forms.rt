//! The forms that a run may have.
ghost use Rattle.std.specs.Prelude.{◌≡◌, ◌<◌, length, ◌↔◌, IsSome, IfSome, true, position};
ghost use Rattle.std.specs.List.{list_all, before_first, after_first};
ghost use Rattle.pq_term.specs.Bytes.{is_word_byte};
ghost use Rattle.pq_term.specs.Forms.{is_word, is_mac, is_ipv4, is_ipv6_address, is_slash, has_slash, is_prefix, is_ipv4_prefix, is_ipv6, form_of};

use crate::bytes::is_word_byte;
use crate::groups::{Group, are_groups};
use crate::numbers::{is_decimal, number_value};
use crate::token::Kind;

/// Whether each byte is a letter, a digit or `_`.
fn are_word_bytes(text: &[u8]) -> bool
    ensures { result ≡ list_all is_word_byte text.now }
{
    text.iter().all(|byte| is_word_byte(*byte))
}

/// Whether the text is a letter, and then at most 31 letters, digits and `_`.
pub(crate) fn is_word(text: &[u8]) -> bool
    ensures { result ≡ is_word text.now }
{
    match text {
        [] => false,
        [first, rest @ ..] => first.is_ascii_alphabetic()
            && rest.len() < 32
            && are_word_bytes(rest),
    }
}

/// Whether the text is a MAC address.
pub(crate) fn is_mac(text: &[u8]) -> bool
    ensures { result ≡ is_mac text.now }
{
    are_groups(b':', 6, Group::Hex(2, 2), text)
}

/// Whether the text is an IPv4 address.
pub(crate) fn is_ipv4(text: &[u8]) -> bool
    ensures { result ≡ is_ipv4 text.now }
{
    are_groups(b'.', 4, Group::Decimal(255), text)
}

/// Whether the text is an IPv6 address with all of its groups.
pub(crate) fn is_ipv6_address(text: &[u8]) -> bool
    ensures { result ≡ is_ipv6_address text.now }
{
    are_groups(b':', 8, Group::Hex(1, 4), text)
}

/// The place of the first slash.
fn slash_place(text: &[u8]) -> Option<usize>
    ensures { result ≡ position is_slash text.now }
{
    text.iter().position(|byte| *byte == b'/')
}

/// What is before and after the first slash.
fn split_at_slash(text: &[u8]) -> Option<(&[u8], &[u8])>
    ensures slash { IsSome result ↔ (has_slash text.now ≡ true) }
    ensures address { IfSome result (λ p. p.0.now ≡ before_first is_slash text.now) }
    ensures length { IfSome result (λ p. p.1.now ≡ after_first is_slash text.now) }
{
    match slash_place(text) {
        Some(slash) => Some((&text[..slash], &text[slash + 1..])),
        None => None,
    }
}

/// Whether the text is an IPv4 address and the length of its prefix.
fn is_ipv4_prefix(text: &[u8]) -> bool
    ensures { result ≡ is_ipv4_prefix text.now }
{
    match split_at_slash(text) {
        Some((address, length)) => is_ipv4(address) && is_decimal(32, length),
        None => false,
    }
}

/// Whether the text is an IPv6 address, with or without the length of its prefix.
fn is_ipv6(text: &[u8]) -> bool
    ensures { result ≡ is_ipv6 text.now }
{
    is_ipv6_address(text) || is_ipv6_prefix(text)
}

/// Whether the text is an IPv6 address and the length of its prefix.
fn is_ipv6_prefix(text: &[u8]) -> bool
    ensures { result ≡ is_prefix is_ipv6_address 128 text.now }
{
    match split_at_slash(text) {
        Some((address, length)) => is_ipv6_address(address) && is_decimal(128, length),
        None => false,
    }
}

/// The kind of token that a whole run is, if it is one.
pub(crate) fn form_of(run: &[u8]) -> Option<Kind>
    ensures { result ≡ form_of run.now }
{
    if is_word(run) {
        Some(Kind::Word)
    } else if number_value(run).is_some() {
        Some(Kind::Number)
    } else if is_mac(run) {
        Some(Kind::Mac)
    } else if is_ipv4(run) {
        Some(Kind::Ipv4)
    } else if is_ipv4_prefix(run) {
        Some(Kind::Ipv4Prefix)
    } else if is_ipv6(run) {
        Some(Kind::Ipv6)
    } else {
        None
    }
}
