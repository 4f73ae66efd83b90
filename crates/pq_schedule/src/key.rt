//! What a line of a schedule may state of an injected packet.
ghost use Rattle.std.specs.Prelude.{◌≡◌, ◌<◌, bytes_eq, find};
ghost use Rattle.pq_fields.specs.Packet.{rank};
ghost use Rattle.pq_schedule.specs.Lines.{key_name, key_named, place_of};

use pq_fields::{Field, field_name};

/// What a number is stated for, besides the packet's switch and its port.
#[derive(Clone, Copy, Debug, PartialEq, Eq)]
pub(crate) enum Key {
    /// The VLAN number.
    Vlan,
    /// A field.
    Header(Field),
}

/// All keys, in the order in which they are stated.
const KEYS: [Key; 13] = [
    Key::Vlan,
    Key::Header(Field::EthType),
    Key::Header(Field::IpProto),
    Key::Header(Field::EthSrc),
    Key::Header(Field::EthDst),
    Key::Header(Field::Ipv4Src),
    Key::Header(Field::Ipv4Dst),
    Key::Header(Field::TcpSrc),
    Key::Header(Field::TcpDst),
    Key::Header(Field::UdpSrc),
    Key::Header(Field::UdpDst),
    Key::Header(Field::Ipv6Src),
    Key::Header(Field::Ipv6Dst),
];

/// A field's place in field order.
fn rank(field: Field) -> u8
    ensures value { result ≡ rank field }
    ensures small { result < 14 }
{
    match field {
        Field::Switch => 0,
        Field::Port => 1,
        Field::EthType => 2,
        Field::IpProto => 3,
        Field::EthSrc => 4,
        Field::EthDst => 5,
        Field::Ipv4Src => 6,
        Field::Ipv4Dst => 7,
        Field::TcpSrc => 8,
        Field::TcpDst => 9,
        Field::UdpSrc => 10,
        Field::UdpDst => 11,
        Field::Ipv6Src => 12,
        Field::Ipv6Dst => 13,
    }
}

/// The first of the keys that has the name.
fn first_named(keys: &[Key], name: &[u8]) -> Option<Key>
    ensures { result ≡ find (λ key. bytes_eq (key_name key) name.now) keys.now }
{
    for key in keys {
        if key.name() == name {
            return Some(*key);
        }
    }
    None
}

impl Key {
    /// The key with this name.
    pub(crate) fn named(name: &[u8]) -> Option<Key>
        ensures { result ≡ key_named name.now }
    {
        first_named(&KEYS, name)
    }

    fn name(self) -> &'static [u8]
        ensures { result.now ≡ key_name self }
    {
        match self {
            Key::Vlan => b"vlan",
            Key::Header(field) => field_name(field),
        }
    }

    /// The key's place in the order in which keys are stated.
    pub(crate) fn place(self) -> u8
        ensures value { result ≡ place_of self }
        ensures small { result < 14 }
    {
        match self {
            Key::Vlan => 0,
            Key::Header(field) => rank(field),
        }
    }
}
