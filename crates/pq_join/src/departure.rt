ghost use Rattle.std.specs.Prelude.{◌≡◌};
ghost use Rattle.pq_join.specs.Exact.{
  departures_eq,
  departures_equiv,
  departures_hash,
  departures_hashes,
  departures_per,
  same_departures,
};

use crate::sight::Seen;
use pq_fields::Writes;
use pq_store::Leaf;
use std::alloc::AllocError;
use std::hash::{Hash, Hasher};
use std::marker::Model;

/// A departure of a packet, by its writes, or its drop.
#[derive(Clone, Copy, Debug, PartialEq, Eq, Hash)]
pub(crate) struct Departure {
    pub writes: Writes,
    /// What is seen of the packet that departs; of one that is dropped, at port 0.
    pub seen: Seen,
}

/// The departures of a packet, in order.
#[derive(Debug, Drop)]
pub(crate) struct Departures {
    pub(crate) list: Vec<Departure>,
}

impl Model for Departures {
    ghost use Rattle.std.specs.Prelude.{List};
    ghost use Rattle.pq_join.specs.declared.departure.Departure.{Departure};

    ghost Value = { List Departure };

    ghost view = { λ d. d.list.items };
}

impl PartialEq for Departures {
    ghost eq = { departures_eq };

    ghost laws = { departures_per };

    fn eq(&self, other: &Departures) -> bool {
        self.list == other.list
    }
}

impl Eq for Departures {
    ghost laws = { departures_equiv };
}

impl Hash for Departures {
    ghost hash_input = { departures_hash };

    ghost respects_eq = { departures_hashes };

    fn hash<H: Hasher>(&self, state: &mut H) {
        self.list.hash(state);
    }
}

impl Leaf for Departures {
    ghost exact = { same_departures };
}
