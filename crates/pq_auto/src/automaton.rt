ghost use Rattle.std.specs.Prelude.{◌≡◌, ◌<◌, [], length};
ghost use Rattle.std.proofs.Math.ListN.{get_or};
ghost use Rattle.pq_auto.specs.Machine.{accepted_at, is_even_at, IsMachine};
ghost use Rattle.pq_auto.specs.Numbering.{IsNumbered};

use crate::table::Table;
use std::marker::Model;

/// A deterministic automaton over letters, which says of each word its parity and which instances hold it.
///
/// State 0 is reached by the empty word; states are numbered by the least word of letters that reaches them, by length and
/// then by letters, and each is reached.
#[derive(Debug, Drop)]
pub struct Automaton {
    pub(crate) table: Table,
}

impl Model for Automaton {
    ghost use Rattle.pq_auto.specs.Machine.{Machine, IsMachine};
    ghost use Rattle.pq_auto.specs.Numbering.{IsNumbered};

    ghost Value = { Machine };

    ghost view = { λ a. a.table };

    ghost invariant = { λ a. IsMachine a.table × IsNumbered a.table };
}

impl Automaton {
    /// The number of letters.
    pub fn letters(&self) -> u64
        ensures { result ≡ self.now.letters }
    {
        self.table.letters()
    }

    /// The number of states.
    pub fn count(&self) -> u64
        ensures { result ≡ length self.now.rows }
    {
        self.table.count()
    }

    /// Whether the words that reach the state have even length.
    pub fn is_even(&self, state: u64) -> bool
        requires { state < length self.now.rows }
        ensures { result ≡ is_even_at self.now state }
    {
        self.table.is_even(state)
    }

    /// The state after one letter more.
    pub fn next(&self, state: u64, letter: u64) -> u64
        requires state { state < length self.now.rows }
        requires letter { letter < self.now.letters }
        ensures next { result ≡ get_or (get_or self.now.rows state []) letter 0 }
        ensures within { result < length self.now.rows }
    {
        self.table.next(state, letter)
    }

    /// The instances that hold the words that reach the state, ascending.
    pub fn accepted(&self, state: u64) -> &[u32]
        requires { state < length self.now.rows }
        ensures { result.now ≡ accepted_at self.now state }
    {
        self.table.accepted(state)
    }

    /// The automaton as a table.
    pub fn table(&self) -> &Table
        ensures { result.now ≡ self.now }
    {
        &self.table
    }

    /// Each state has a parity and a next state for each letter, and is numbered by the least word that reaches it.
    pub fn is_lawful(&self)
        ensures machine { IsMachine self.now }
        ensures numbered { IsNumbered self.now }
    {
        let _ = &self.table;
    }
}
