//! The messages that turn the tables of one switch into others.
ghost use Rattle.std.specs.Prelude.{◌≡◌, ◌<◌, ◌+◌, ◌^◌, ◌++◌, ◌∷◌, [], All, length, map, IfOk, OnOk};
ghost use Rattle.pq_model.specs.declared.message.Message.TheVariants.{Flow};
ghost use Rattle.pq_model.specs.Install.{IsLawfulList};
ghost use Rattle.pq_delta.specs.Added.{entries_added};
ghost use Rattle.pq_delta.specs.Changes.{adds_from, amount, change_messages, changes, deletes_from};
ghost use Rattle.pq_delta.specs.Delta.{switch_delta};
ghost use Rattle.pq_delta.specs.Equal.{others};

use crate::added::{added_entry, group_count};
use crate::group_changes::{push_group_deletes, push_groups};
use crate::key::{Key, is_known, keys_of};
use crate::sending::{push_add, push_barrier, push_delete};
use crate::unchanged::all_add_same;
use indexmap::IndexSet;
use pq_model::Message;
use std::alloc::{AllocError, Global};

/// How many messages there are where nothing changes.
const BARRIERS: usize = 3;

/// The messages that turn the tables that old messages leave into those that new ones leave; none where nothing changes. Lists that
/// are the same are only compared.
#[tactic(auto, using(crate::proofs::AssemblyLemmas::none_where_nothing_changes, crate::proofs::AssemblyLemmas::all_where_something_changes, crate::proofs::UnchangedLemmas::none_where_the_same))]
pub(crate) fn switch_delta(
    alloc: Global,
    old: &[Message],
    new: &[Message],
) -> Result<Vec<Message>, AllocError>
    requires old { IsLawfulList old.now }
    requires new { IsLawfulList new.now }
    ensures messages { IfOk result (λ ms. ms.items ≡ switch_delta old.now new.now) }
    ensures few { IfOk result (λ ms. length ms.items < 2 ^ 32) }
{
    if all_add_same(old, new) {
        return Ok(Vec::new(alloc));
    }
    let messages = change_messages(alloc, old, new)?;
    if messages.len() == BARRIERS {
        return Ok(Vec::new(alloc));
    }
    Ok(messages)
}

/// These messages where something changes, and three barriers where nothing does.
fn change_messages(
    alloc: Global,
    old: &[Message],
    new: &[Message],
) -> Result<Vec<Message>, AllocError>
    requires old { IsLawfulList old.now }
    requires new { IsLawfulList new.now }
    ensures messages { IfOk result (λ ms. ms.items ≡ change_messages (changes old.now new.now)) }
    ensures long { IfOk result (λ ms. length ms.items ≡ amount (changes old.now new.now) + 3) }
    ensures few { IfOk result (λ ms. length ms.items < 2 ^ 32) }
{
    let old_keys = keys_of(alloc, old)?;
    let new_keys = keys_of(alloc, new)?;
    let mut messages = Vec::new(alloc);
    push_removed(alloc, &mut messages, old, &new_keys)?;
    push_group_deletes(alloc, &mut messages, group_count(new), group_count(old))?;
    push_barrier(&mut messages)?;
    push_groups(alloc, &mut messages, old, new)?;
    push_barrier(&mut messages)?;
    push_added(alloc, &mut messages, new, &old_keys)?;
    push_barrier(&mut messages)?;
    Ok(messages)
}

/// Appends the DeleteStricts of the old entries that aren't known.
fn push_removed<'a>(
    alloc: Global,
    messages: &mut Vec<Message>,
    old: &'a [Message],
    known: &IndexSet<Key<'a>>,
) -> Result<(), AllocError>
    ensures { OnOk result (messages.new.items
        ≡ messages.old.items ++ map Flow (deletes_from (length messages.old.items + 1) (others known.now.keys (entries_added old.now)))) }
{
    for message in old {
        remove(alloc, messages, message, known)?;
    }
    Ok(())
}

/// Appends the DeleteStrict of the entry that the message adds, if it adds one that isn't known.
fn remove<'a>(
    alloc: Global,
    messages: &mut Vec<Message>,
    message: &'a Message,
    known: &IndexSet<Key<'a>>,
) -> Result<(), AllocError>
    ensures { OnOk result (messages.new.items
        ≡ messages.old.items ++ map Flow (deletes_from (length messages.old.items + 1)
        (others known.now.keys (entries_added (message.now ∷ []))))) }
{
    let Some(flow) = added_entry(message) else {
        return Ok(());
    };
    if is_known(known, flow) {
        return Ok(());
    }
    push_delete(alloc, messages, flow)
}

/// Appends the Adds of the new entries that aren't known.
fn push_added<'a>(
    alloc: Global,
    messages: &mut Vec<Message>,
    new: &'a [Message],
    known: &IndexSet<Key<'a>>,
) -> Result<(), AllocError>
    ensures { OnOk result (messages.new.items
        ≡ messages.old.items ++ map Flow (adds_from (length messages.old.items + 1) (others known.now.keys (entries_added new.now)))) }
{
    for message in new {
        add(alloc, messages, message, known)?;
    }
    Ok(())
}

/// Appends the Add of the entry that the message adds, if it adds one that isn't known.
fn add<'a>(
    alloc: Global,
    messages: &mut Vec<Message>,
    message: &'a Message,
    known: &IndexSet<Key<'a>>,
) -> Result<(), AllocError>
    ensures { OnOk result (messages.new.items
        ≡ messages.old.items ++ map Flow (adds_from (length messages.old.items + 1)
        (others known.now.keys (entries_added (message.now ∷ []))))) }
{
    let Some(flow) = added_entry(message) else {
        return Ok(());
    };
    if is_known(known, flow) {
        return Ok(());
    }
    push_add(alloc, messages, flow)
}
