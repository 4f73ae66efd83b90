//! States of one expression that a search has met, told apart by their rests and parities alone.
ghost use Rattle.pq_auto.specs.Met.{met_eq, met_hash, met_per, met_equiv, met_hashes};

use pq_deriv::State;
use std::hash::{Hash, Hasher};
use std::marker::Model;

/// A state, and whether words of even length lead there. Only states of one expression are compared, so the expression is
/// left out.
#[derive(Drop)]
pub(crate) struct Met {
    pub(crate) state: State,
    pub(crate) even: bool,
}

impl Model for Met {
    ghost use Rattle.std.specs.Prelude.{Bool};
    ghost use Rattle.pq_deriv.specs.State.{StateValue};
    ghost use Rattle.pq_deriv.specs.contracts.state.State as states;
    ghost use Rattle.std.specs.Coded.{codes};

    ghost Value = { StateValue × Bool };

    ghost coded = { Prim.hlevel (codes, states.the_row.coded) };

    ghost view = { λ m. (m.state, m.even) };
}

impl PartialEq for Met {
    ghost eq = { met_eq };

    ghost laws = { met_per };

    fn eq(&self, other: &Met) -> bool {
        self.state.rest() == other.state.rest() && self.even == other.even
    }
}

impl Eq for Met {
    ghost laws = { met_equiv };
}

impl Hash for Met {
    ghost hash_input = { met_hash };

    ghost respects_eq = { met_hashes };

    fn hash<H: Hasher>(&self, state: &mut H) {
        self.state.rest().hash(state);
    }
}
