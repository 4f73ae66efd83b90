ghost use Rattle.std.specs.Prelude.{◌≡◌};
ghost use Rattle.pq_rewrite.specs.Leaves.{copies_eq, copies_equiv, copies_hash, copies_hashes, copies_per, same_copies};

use pq_fields::Writes;
use pq_store::Leaf;
use std::alloc::AllocError;
use std::hash::{Hash, Hasher};
use std::marker::Model;

/// Where a copy of a packet goes.
#[derive(Clone, Copy, Debug, PartialEq, Eq, PartialOrd, Ord, Hash)]
pub enum OutKind {
    /// Out of the port.
    Send,
    /// To the collector.
    CaptureOut,
}

/// A copy that a table gives of a packet: what is written into it, the tag that it carries, if any, and where it goes.
#[derive(Clone, Copy, Debug, PartialEq, Eq, PartialOrd, Ord, Hash)]
pub struct Outgoing {
    pub writes: Writes,
    pub tag: Option<u16>,
    pub kind: OutKind,
}

/// The copies that a table gives of a packet, in order.
#[derive(Debug, Drop)]
pub struct Copies {
    list: Vec<Outgoing>,
}

impl Model for Copies {
    ghost use Rattle.std.specs.Prelude.{List};
    ghost use Rattle.pq_rewrite.specs.declared.outgoing.Outgoing.{Outgoing};

    ghost Value = { List Outgoing };

    ghost view = { λ c. c.list.items };
}

impl PartialEq for Copies {
    ghost eq = { copies_eq };

    ghost laws = { copies_per };

    fn eq(&self, other: &Copies) -> bool {
        self.list == other.list
    }
}

impl Eq for Copies {
    ghost laws = { copies_equiv };
}

impl Hash for Copies {
    ghost hash_input = { copies_hash };

    ghost respects_eq = { copies_hashes };

    fn hash<H: Hasher>(&self, state: &mut H) {
        self.list.hash(state);
    }
}

impl Clone for Copies {
    ghost use Rattle.std.specs.Prelude.{◌≡◌};

    ghost is_clone = { λ c d. d ≡ c };

    fn clone(&self) -> Result<Copies, AllocError> {
        let list = Vec::from_slice(*self.list.allocator(), &self.list)?;
        Ok(Copies { list })
    }
}

impl Leaf for Copies {
    ghost exact = { same_copies };
}

impl Copies {
    /// These copies, in this order.
    pub fn of(list: Vec<Outgoing>) -> Copies
        ensures { result ≡ list.items }
    {
        Copies { list }
    }

    /// The copies, in order.
    pub fn list(&self) -> &[Outgoing]
        ensures { result.now ≡ self.now }
    {
        &self.list
    }
}
