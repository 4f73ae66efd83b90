ghost use Rattle.std.specs.Prelude.{◌≡◌};
ghost use Rattle.pq_rewrite.specs.Order.{same_set, set_eq, set_equiv, set_hash, set_hashes, set_per};
ghost use Rattle.pq_rewrite.specs.Rewriting.{Ascend};

use pq_fields::Writes;
use pq_store::Leaf;
use std::alloc::AllocError;
use std::hash::{Hash, Hasher};
use std::marker::Model;

/// A set of writes: an ascending list of them, each once.
#[derive(Debug, Drop)]
pub struct WriteSet {
    list: Vec<Writes>,
}

impl Model for WriteSet {
    ghost use Rattle.std.specs.Prelude.{List};
    ghost use Rattle.pq_fields.specs.Writes.{Written};
    ghost use Rattle.pq_rewrite.specs.Rewriting.{Ascend};

    ghost Value = { List Written };

    ghost view = { λ s. s.list.items };

    ghost invariant = { λ s. Ascend s.list.items };
}

impl PartialEq for WriteSet {
    ghost eq = { set_eq };

    ghost laws = { set_per };

    fn eq(&self, other: &WriteSet) -> bool {
        self.list == other.list
    }
}

impl Eq for WriteSet {
    ghost laws = { set_equiv };
}

impl Hash for WriteSet {
    ghost hash_input = { set_hash };

    ghost respects_eq = { set_hashes };

    fn hash<H: Hasher>(&self, state: &mut H) {
        self.list.hash(state);
    }
}

impl Clone for WriteSet {
    ghost use Rattle.std.specs.Prelude.{◌≡◌};

    ghost is_clone = { λ s t. t ≡ s };

    fn clone(&self) -> Result<WriteSet, AllocError> {
        let list = Vec::from_slice(*self.list.allocator(), &self.list)?;
        Ok(WriteSet { list })
    }
}

impl Leaf for WriteSet {
    ghost exact = { same_set };
}

impl WriteSet {
    /// The set of these writes, which ascend, each once.
    pub fn of(list: Vec<Writes>) -> WriteSet
        requires { Ascend list.items }
        ensures { result ≡ list.items }
    {
        WriteSet { list }
    }

    /// The writes, ascending.
    pub fn list(&self) -> &[Writes]
        ensures list { result.now ≡ self.now }
        ensures ascend { Ascend self.now }
    {
        &self.list
    }
}
