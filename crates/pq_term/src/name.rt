//! A name as a value of its own.
ghost use Rattle.std.specs.Prelude.{◌≡◌, ◌≤◌, length, if◌then◌else◌, IsTrue};
ghost use Rattle.std.specs.declared.option.Option.TheVariants.{None, Some};
ghost use Rattle.pq_term.specs.Names.{is_name};

use crate::names::is_name;
use std::marker::Model;

/// The most bytes of a name.
const LONGEST: usize = 32;

/// A name: 1 to 32 bytes, a word that is not reserved.
#[derive(Clone, Copy, Debug, PartialEq, Eq, PartialOrd, Ord, Hash)]
pub struct Name {
    padded: [u8; LONGEST],
    len: usize,
}

impl Model for Name {
    ghost use Rattle.std.specs.Prelude.{ℕ, List};

    ghost Value = { List ℕ };

    ghost use Rattle.pq_term.specs.Stored.{stored_bytes, stored, IsStoredName};

    ghost view = { stored_bytes };

    ghost invariant = { IsStoredName };

    ghost inverse = { stored };

    ghost inverse_ok = { λ a h. h.padded };
}

impl Name {
    /// The name with these bytes; `None` exactly where they are not name.
    pub fn of(bytes: &[u8]) -> Option<Name>
        ensures { result ≡ (if is_name bytes.now then Some bytes.now else None) }
    {
        if !is_name(bytes) {
            return None;
        }
        let mut padded = [0; LONGEST];
        padded[..bytes.len()].copy_from_slice(bytes);
        Some(Name {
            padded,
            len: bytes.len(),
        })
    }

    /// The bytes of the name.
    pub fn bytes(&self) -> &[u8]
        ensures bytes { result.now ≡ self.now }
        ensures name { IsTrue (is_name self.now) }
        ensures short { length self.now ≤ 32 }
    {
        &self.padded[..self.len]
    }
}
