//! Groups of digits with a byte between each two.
ghost use Rattle.std.specs.Prelude.{◌≡◌, length};
ghost use Rattle.std.specs.List.{list_all};
ghost use Rattle.pq_term.specs.Groups.{is_group, parts, are_groups};

use crate::numbers::{is_decimal, is_hex};

/// The shape of each group.
#[derive(Clone, Copy)]
pub(crate) enum Group {
    /// This many hexadecimal digits, at least and at most.
    Hex(usize, usize),
    /// A decimal number without leading zeros, at most this one.
    Decimal(u64),
}

/// Whether the text is a group of this shape.
fn is_group(group: Group, text: &[u8]) -> bool
    ensures { result ≡ is_group group text.now }
{
    match group {
        Group::Hex(least, most) => is_hex(least, most, text),
        Group::Decimal(most) => is_decimal(most, text),
    }
}

/// How many parts the separators cut the text into.
fn part_count(separator: u8, text: &[u8]) -> usize
    ensures { result ≡ length (parts separator text.now) }
{
    text.split(|byte| *byte == separator).count()
}

/// Whether each of the parts that the separators cut the text into is a group of this shape.
fn all_are_groups(separator: u8, group: Group, text: &[u8]) -> bool
    ensures { result ≡ list_all (is_group group) (parts separator text.now) }
{
    text.split(|byte| *byte == separator)
        .all(|part| is_group(group, part))
}

/// Whether the text is this many groups of this shape, joined by the separator.
pub(crate) fn are_groups(separator: u8, count: usize, group: Group, text: &[u8]) -> bool
    ensures { result ≡ are_groups separator count group text.now }
{
    part_count(separator, text) == count && all_are_groups(separator, group, text)
}
