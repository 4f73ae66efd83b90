ghost use Rattle.std.specs.Prelude.{◌≡◌, ◌↔◌, IsTrue};
ghost use Rattle.pq_store.specs.Test.{IsLawful, Precedes, field_of, passes, place_of};

use pq_fields::{Field, Packet};

/// A test of a packet: it looks at a field's number, whether or not the packet has the field.
#[derive(Clone, Copy, Debug, PartialEq, Eq, Hash)]
pub enum Test {
    /// The field's number is this one; of a field that is not an address.
    Equal(Field, u64),
    /// The bit at this place is set, 0 being the highest; of an address.
    Bit(Field, u8),
}

impl Test {
    /// The field that is tested.
    pub fn field(self) -> Field
        ensures { result ≡ field_of self }
    {
        match self {
            Test::Equal(field, _) | Test::Bit(field, _) => field,
        }
    }

    /// The number or the place that is tested.
    fn place(self) -> u64
        ensures { result ≡ place_of self }
    {
        match self {
            Test::Equal(_, value) => value,
            Test::Bit(_, index) => u64::from(index),
        }
    }

    /// Whether this test is before the other: by field, then by number or place.
    pub fn precedes(self, other: Test) -> bool
        ensures { IsTrue result ↔ Precedes self other }
    {
        let (own, others) = (self.field() as u8, other.field() as u8);
        own < others || (own == others && self.place() < other.place())
    }

    /// Whether the packet passes the test.
    pub fn passes(self, x: &Packet) -> bool
        requires { IsLawful self }
        ensures { result ≡ passes self x.now }
    {
        match self {
            Test::Equal(field, value) => x.get(field) == value,
            Test::Bit(field, index) => x.bit(field, index),
        }
    }
}
