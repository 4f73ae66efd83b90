//! A table of what has been made, so that each thing is made once.
ghost use Rattle.std.specs.Prelude.{◌≡◌, Some, OnOk};
ghost use Rattle.indexmap.specs.IndexMap.{get, Updates};

use indexmap::IndexMap;
use pq_store::NodeId;
use std::alloc::AllocError;
use std::hash::Hash;

/// The node that was made for a key, if there is one.
pub fn recall<K: Eq + Hash>(done: &IndexMap<K, NodeId>, key: &K) -> Option<NodeId>
    ensures { result ≡ get K.eq done.now key.now }
{
    done.get(key).copied()
}

/// Notes the node that was made for a key.
pub fn remember<K: Eq + Hash + Drop>(
    done: &mut IndexMap<K, NodeId>,
    key: K,
    id: NodeId,
) -> Result<(), AllocError>
    ensures { OnOk result (Updates K.eq done.old done.new key (Some id)) }
{
    match done.insert(key, id) {
        Ok(_) => Ok(()),
        Err(_) => Err(AllocError),
    }
}
