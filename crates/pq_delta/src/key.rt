//! Entries as keys of a set.
ghost use Rattle.std.specs.Prelude.{◌≡◌, ◌∷◌, [], IfOk, OnOk};
ghost use Rattle.indexmap.specs.IndexSet.{insert_all};
ghost use Rattle.pq_model.specs.SwitchMachine.{entry_of};
ghost use Rattle.pq_delta.specs.Added.{entries_added};
ghost use Rattle.pq_delta.specs.Equal.{is_among, same_entry};
ghost use Rattle.pq_delta.specs.Keys.{entry_equiv, entry_hash, entry_hashes, entry_per, keys_of};

use crate::added::added_entry;
use crate::equal::same_entry;
use indexmap::IndexSet;
use pq_model::{FlowMod, Message};
use std::alloc::{AllocError, Global};
use std::hash::{Hash, Hasher};
use std::marker::Model;

/// The entry of a flow mod. Of a compiler's install no two entries of a table have one priority, so the hash is of these two numbers.
#[derive(Drop)]
pub(crate) struct Key<'a> {
    flow: &'a FlowMod,
}

impl<'a> Model for Key<'a> {
    ghost use Rattle.pq_model.specs.SwitchMachine.{Entry, entry_of};

    ghost Value = { Entry };

    ghost view = { λ k. entry_of k.flow.now };
}

impl<'a> PartialEq for Key<'a> {
    ghost eq = { same_entry };

    ghost laws = { entry_per };

    fn eq(&self, other: &Key<'a>) -> bool {
        same_entry(self.flow, other.flow)
    }
}

impl<'a> Eq for Key<'a> {
    ghost laws = { entry_equiv };
}

impl<'a> Hash for Key<'a> {
    ghost hash_input = { entry_hash };

    ghost respects_eq = { entry_hashes };

    fn hash<H: Hasher>(&self, state: &mut H) {
        let flow = self.flow;
        flow.table.hash(state);
        flow.priority.hash(state);
    }
}

/// The entries that messages add, each once.
pub(crate) fn keys_of<'a>(
    alloc: Global,
    messages: &'a [Message],
) -> Result<IndexSet<Key<'a>>, AllocError>
    ensures { IfOk result (λ keys. keys.keys ≡ keys_of (entries_added messages.now)) }
{
    let mut keys = IndexSet::with_capacity(alloc, messages.len())?;
    for message in messages {
        add_key(&mut keys, message)?;
    }
    Ok(keys)
}

/// Adds the entry that the message adds, if it adds one.
fn add_key<'a>(keys: &mut IndexSet<Key<'a>>, message: &'a Message) -> Result<(), AllocError>
    ensures { OnOk result (keys.new.keys ≡ insert_all same_entry keys.old.keys (entries_added (message.now ∷ []))) }
{
    let Some(flow) = added_entry(message) else {
        return Ok(());
    };
    match keys.insert(Key { flow }) {
        Ok(_) => Ok(()),
        Err(_) => Err(AllocError),
    }
}

/// Whether the entry of a flow mod is among these.
pub(crate) fn is_known<'a>(keys: &IndexSet<Key<'a>>, flow: &'a FlowMod) -> bool
    ensures { result ≡ is_among (entry_of flow.now) keys.now.keys }
{
    keys.contains(&Key { flow })
}
