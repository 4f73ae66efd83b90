//! States are compared by their expressions, and then by the numbers of their rests.
ghost use Rattle.std.specs.Prelude.{Some, refl};
ghost use Rattle.std.specs.Cmp.{partial_order_from_agreeing_total};
ghost use Rattle.pq_deriv.specs.Order.{state_eq, state_cmp, state_hash, state_per, state_equiv, state_total, state_ties, state_hashes};

use crate::state::State;
use std::cmp::Ordering;
use std::hash::{Hash, Hasher};

impl PartialEq for State {
    ghost eq = { state_eq };

    ghost laws = { state_per };

    fn eq(&self, other: &State) -> bool {
        self.expr == other.expr && self.rest == other.rest
    }
}

impl Eq for State {
    ghost laws = { state_equiv };
}

impl PartialOrd for State {
    ghost partial_cmp = { λ a b. Some (state_cmp a b) };

    ghost laws = { partial_order_from_agreeing_total state_cmp state_total (λ a b. refl) state_ties };

    fn partial_cmp(&self, other: &State) -> Option<Ordering> {
        Some(self.cmp(other))
    }
}

impl Ord for State {
    ghost cmp = { state_cmp };

    ghost total = { state_total };

    ghost matches_partial_cmp = { λ a b. refl };

    ghost matches_eq = { state_ties };

    fn cmp(&self, other: &State) -> Ordering {
        self.expr.cmp(&other.expr).then(self.rest.cmp(&other.rest))
    }
}

impl Hash for State {
    ghost hash_input = { state_hash };

    ghost respects_eq = { state_hashes };

    fn hash<H: Hasher>(&self, state: &mut H) {
        self.expr.hash(state);
        self.rest.hash(state);
    }
}
