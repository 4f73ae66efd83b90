ghost use Rattle.std.specs.Prelude.{◌≡◌, ◌<◌, [], length};
ghost use Rattle.std.proofs.Math.ListN.{get_or};
ghost use Rattle.pq_auto.specs.Machine.{accepted_at, is_even_at, AllBelow, IsMachine};
ghost use Rattle.pq_auto.specs.Tables.{holds_at};

use std::marker::Model;

/// A deterministic automaton over letters: each state has a parity, the instances that hold the words that reach it, and a
/// next state for each letter. State 0 is reached by the empty word.
#[derive(Debug, Drop)]
pub struct Table {
    pub(crate) letters: u64,
    pub(crate) rows: Vec<Vec<u64>>,
    pub(crate) even: Vec<bool>,
    pub(crate) accepted: Vec<Vec<u32>>,
}

impl Model for Table {
    ghost use Rattle.pq_auto.specs.Machine.{Machine, IsMachine};
    ghost use Rattle.pq_auto.specs.Stored.{stored_machine};

    ghost Value = { Machine };

    ghost view = { stored_machine };

    ghost invariant = { λ a. IsMachine (stored_machine a) };
}

impl Table {
    /// The number of letters.
    pub fn letters(&self) -> u64
        ensures { result ≡ self.now.letters }
    {
        self.letters
    }

    /// The number of states.
    pub fn count(&self) -> u64
        ensures { result ≡ length self.now.rows }
    {
        self.rows.len() as u64
    }

    /// Whether the words that reach the state have even length.
    pub fn is_even(&self, state: u64) -> bool
        requires { state < length self.now.rows }
        ensures { result ≡ is_even_at self.now state }
    {
        self.even[state as usize]
    }

    /// The state after one letter more.
    #[tactic(auto, using(crate::proofs::Below::one_below))]
    pub fn next(&self, state: u64, letter: u64) -> u64
        requires state { state < length self.now.rows }
        requires letter { letter < self.now.letters }
        ensures next { result ≡ get_or (get_or self.now.rows state []) letter 0 }
        ensures within { result < length self.now.rows }
    {
        self.row(state)[letter as usize]
    }

    /// The next state for each letter.
    pub(crate) fn row(&self, state: u64) -> &[u64]
        requires { state < length self.now.rows }
        ensures row { result.now ≡ get_or self.now.rows state [] }
        ensures long { length result.now ≡ self.now.letters }
        ensures within { AllBelow (length self.now.rows) result.now }
    {
        &self.rows[state as usize]
    }

    /// The instances that hold the words that reach the state, ascending.
    pub fn accepted(&self, state: u64) -> &[u32]
        requires { state < length self.now.rows }
        ensures { result.now ≡ accepted_at self.now state }
    {
        &self.accepted[state as usize]
    }

    /// Each state has a parity, what it accepts, and a next state for each letter.
    pub fn is_lawful(&self)
        ensures { IsMachine self.now }
    {
        let _ = &self.letters;
    }

    /// The state after one letter more, 0 where there is no such state or letter.
    pub(crate) fn after(&self, state: u64, letter: u64) -> u64
        ensures { result ≡ get_or (get_or self.now.rows state []) letter 0 }
    {
        let Some(row) = self.rows.get(state as usize) else {
            return 0;
        };
        match row.get(letter as usize) {
            Some(next) => *next,
            None => 0,
        }
    }

    /// Whether an instance holds the words that reach the state; none does where there is no such state.
    pub(crate) fn holds(&self, state: u64) -> bool
        ensures { result ≡ holds_at self.now state }
    {
        match self.accepted.get(state as usize) {
            Some(instances) => !instances.is_empty(),
            None => false,
        }
    }
}
