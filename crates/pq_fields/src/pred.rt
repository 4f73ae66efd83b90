use crate::field::Field;

/// A predicate on packets.
///
/// A lawful predicate has numbers within the widths of their fields, prefixes of an IPv4 field and of at most 32 bits, wide
/// prefixes of an IPv6 field and of at most 128 bits, and no empty list of operands. A field that the packet does not have
/// meets no test.
#[derive(Debug, PartialEq, Eq, Drop)]
pub enum Pred {
    True,
    False,
    /// The field's number is this one.
    Equal(Field, u64),
    /// The leading bits of an IPv4 address, this many, are those of this address.
    Prefix(Field, u32, u8),
    /// The leading bits of an IPv6 address, this many, are those of this address.
    Wide(Field, u128, u8),
    And(Vec<Pred>),
    Or(Vec<Pred>),
    Not(Box<Pred>),
}
