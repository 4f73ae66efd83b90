ghost use Rattle.std.specs.Prelude.{◌≡◌, ◌<◌, [], length};
ghost use Rattle.std.proofs.Math.ListN.{get_or};
ghost use Rattle.pq_auto.specs.Machine.{accepted_at, is_even_at, IsMachine, IsLeastMachine};
ghost use Rattle.pq_auto.specs.Numbering.{IsNumbered};

use pq_auto::Table;
use std::marker::Model;

/// The least automaton that says of each word over the letters its parity and which instances hold it: its states are the
/// classes of words, of which no two can be told apart by what follows (after Myhill and Nerode).
///
/// Class 0 is that of the empty word; classes are numbered by their least words, by length and then by letters.
#[derive(Debug, Drop)]
pub struct Classes {
    pub(crate) table: Table,
}

impl Model for Classes {
    ghost use Rattle.pq_auto.specs.Machine.{Machine, IsMachine, IsLeastMachine};
    ghost use Rattle.pq_auto.specs.Numbering.{IsNumbered};

    ghost Value = { Machine };

    ghost view = { λ a. a.table };

    ghost invariant = { λ a. IsMachine a.table × IsNumbered a.table × IsLeastMachine a.table };
}

impl Classes {
    /// The number of classes.
    pub fn count(&self) -> u64
        ensures { result ≡ length self.now.rows }
    {
        self.table.count()
    }

    /// Whether the words that reach the class have even length.
    pub fn is_even(&self, class: u64) -> bool
        requires { class < length self.now.rows }
        ensures { result ≡ is_even_at self.now class }
    {
        self.table.is_even(class)
    }

    /// The class after one letter more.
    pub fn next(&self, class: u64, letter: u64) -> u64
        requires class { class < length self.now.rows }
        requires letter { letter < self.now.letters }
        ensures next { result ≡ get_or (get_or self.now.rows class []) letter 0 }
        ensures within { result < length self.now.rows }
    {
        self.table.next(class, letter)
    }

    /// The instances that hold the words that reach the class, ascending.
    pub fn accepted(&self, class: u64) -> &[u32]
        requires { class < length self.now.rows }
        ensures { result.now ≡ accepted_at self.now class }
    {
        self.table.accepted(class)
    }

    /// Each class has a parity and a next class for each letter, classes are numbered by their least words, and no two are the
    /// same.
    pub fn is_lawful(&self)
        ensures machine { IsMachine self.now }
        ensures numbered { IsNumbered self.now }
        ensures least { IsLeastMachine self.now }
    {
        let _ = &self.table;
    }
}
