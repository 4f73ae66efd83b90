ghost use Rattle.pq_letters.specs.Order.{same_truths, truths_eq, truths_equiv, truths_hash, truths_hashes, truths_per};

use pq_store::Leaf;
use std::hash::{Hash, Hasher};
use std::marker::Model;

/// Which of some predicates hold of a packet, in their order.
#[derive(Debug, Drop)]
pub(crate) struct Signature {
    pub(crate) truths: Vec<bool>,
}

impl Model for Signature {
    ghost use Rattle.std.specs.Prelude.{Bool, List};

    ghost Value = { List Bool };

    ghost view = { λ s. s.truths.items };
}

impl PartialEq for Signature {
    ghost eq = { truths_eq };

    ghost laws = { truths_per };

    fn eq(&self, other: &Signature) -> bool {
        self.truths == other.truths
    }
}

impl Eq for Signature {
    ghost laws = { truths_equiv };
}

impl Hash for Signature {
    ghost hash_input = { truths_hash };

    ghost respects_eq = { truths_hashes };

    fn hash<H: Hasher>(&self, state: &mut H) {
        self.truths.hash(state);
    }
}

impl Leaf for Signature {
    ghost exact = { same_truths };
}
