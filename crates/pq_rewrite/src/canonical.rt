ghost use Rattle.std.specs.Prelude.{◌<◌, length};
ghost use Rattle.pq_rewrite.specs.Rewriting.{IsCanonicalRewriting};

use crate::write_set::WriteSet;
use pq_store::{NodeId, Store};

/// Idle-free diagrams of one store that give the same packets on every packet are one. It does nothing when it runs: a caller
/// that compares ids may call it to know this.
pub fn equal_rewritings_are_one(store: &Store<WriteSet>, node: NodeId)
    requires { node < length store.now }
    ensures { IsCanonicalRewriting store.now }
{
    let _ = store.view(node);
}
