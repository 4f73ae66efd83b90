//! The messages that fill a switch's tables (OpenFlow 1.3.5, sections 7.3.4 and 7.3.8).
ghost use Rattle.std.specs.Prelude.{◌≡◌, ◌<◌, ◌≤◌, ◌+◌, ◌^◌, ◌++◌, ◌∷◌, [], All, IfOk, IfSome, OnOk, length, map, None};
ghost use Rattle.pq_model.specs.declared.message.Message.TheVariants.{Barrier, Flow, Group};
ghost use Rattle.pq_layout.specs.Actions.{buckets_of};
ghost use Rattle.pq_layout.specs.Messages.{
  adds_from,
  delete_entries,
  delete_groups,
  first_rule,
  groups_from,
  is_untagged,
};
ghost use Rattle.pq_layout.specs.Sound.{IsSoundCopy};
ghost use Rattle.pq_rules.specs.Grouping.{leaf_at, placed_actions, placed_rules, resolved};
ghost use Rattle.pq_rules.specs.Renewing.{AreFewPlaces, IsArrivingLeaf, IsLeavingLeaf, IsRule, add_of, few, group_of, messages_by, rule_of};

use crate::actions::{arrival_actions, copy_actions};
use crate::grouping::{Grouping, leaf_copies};
use indexmap::IndexSet;
use pq_model::{ALL_GROUPS, Action, FlowCommand, FlowMod, GroupCommand, GroupMod, Match, Message};
use pq_rewrite::{Arrive, Copies, Outgoing};
use pq_store::{NodeId, Store, View};
use std::alloc::{AllocError, Global};

/// The table number that names all tables.
const ALL_TABLES: u8 = 0xff;

/// The priority of a table's first entry.
const HIGHEST: u16 = 65535;

/// The messages of a renewal that aren't Adds: two that delete everything, and three barriers.
const DELETES_AND_BARRIERS: usize = 5;

/// The messages of these entries and groups, with transaction ids from 1 on: all is deleted, then groups are added, then
/// entries, with a barrier after each.
pub(crate) fn renewal(
    first: &Store<Option<Arrive>>,
    first_entries: &[(Match, NodeId)],
    second: &Store<Copies>,
    second_entries: &[(Match, NodeId)],
    grouping: &Grouping,
) -> Result<Vec<Message>, AllocError>
    requires first_few { length first_entries.now ≤ few }
    requires second_few { length second_entries.now ≤ few }
    requires groups_few { length grouping.now.groups.keys ≤ few }
    requires first_leaves { All (λ e. IsArrivingLeaf first.now e.1) first_entries.now }
    requires second_leaves { All (λ e. IsLeavingLeaf second.now e.1) second_entries.now }
    requires groups { All (All IsSoundCopy) grouping.now.groups.keys }
    requires places { AreFewPlaces grouping.now.places.items }
    requires placed { length grouping.now.places.items ≡ length second_entries.now }
    ensures { IfOk result (λ ms. ms.items ≡ messages_by grouping.now.groups.keys grouping.now.places.items
        (resolved None first.now first_entries.now) (resolved [] second.now second_entries.now)) }
{
    let entries = first_entries.len() + second_entries.len();
    let room = entries + grouping.groups.len() + DELETES_AND_BARRIERS;
    let mut messages = Vec::with_capacity(first.allocator(), room)?;
    push_deletes(&mut messages)?;
    push_barrier(&mut messages)?;
    push_groups(&mut messages, &grouping.groups)?;
    push_barrier(&mut messages)?;
    push_first(&mut messages, first, first_entries)?;
    push_second(&mut messages, second, second_entries, &grouping.places)?;
    push_barrier(&mut messages)?;
    Ok(messages)
}

/// The transaction id of the next message.
fn next_xid(messages: &[Message]) -> u32
    requires { length messages.now < 2 ^ 31 }
    ensures { result ≡ length messages.now + 1 }
{
    messages.len() as u32 + 1
}

/// Appends a barrier.
fn push_barrier(messages: &mut Vec<Message>) -> Result<(), AllocError>
    requires { length messages.old.items < 2 ^ 31 }
    ensures { OnOk result (messages.new.items ≡ messages.old.items ++ Barrier (length messages.old.items + 1) ∷ []) }
{
    let xid = next_xid(messages);
    messages.push(Message::Barrier { xid })?;
    Ok(())
}

/// Appends the messages that delete all entries and all groups.
fn push_deletes(messages: &mut Vec<Message>) -> Result<(), AllocError>
    ensures { OnOk result (messages.new.items ≡ messages.old.items ++ Flow delete_entries ∷ Group delete_groups ∷ []) }
{
    let alloc = *messages.allocator();
    messages.push(Message::Flow(FlowMod {
        xid: 1,
        cookie: 0,
        table: ALL_TABLES,
        command: FlowCommand::DeleteAll,
        priority: 0,
        matching: Match::any(),
        actions: Vec::new(alloc),
        goto: None,
    }))?;
    messages.push(Message::Group(GroupMod {
        xid: 2,
        command: GroupCommand::Delete,
        group: ALL_GROUPS,
        buckets: Vec::new(alloc),
    }))?;
    Ok(())
}

/// Appends the ADDs of the groups, numbered from 1.
fn push_groups(messages: &mut Vec<Message>, groups: &IndexSet<Copies>) -> Result<(), AllocError>
    requires few { length messages.old.items ≤ few }
    requires groups_few { length groups.now.keys ≤ few }
    requires sound { All (All IsSoundCopy) groups.now.keys }
    ensures { OnOk result (messages.new.items
        ≡ messages.old.items ++ map Group (groups_from (length messages.old.items + 1) 1 (map buckets_of groups.now.keys))) }
{
    let mut number: u32 = 0;
    for copies in groups.as_slice() {
        number += 1;
        push_group(messages, number, copies.list())?;
    }
    Ok(())
}

/// Appends the ADD of a group.
fn push_group(
    messages: &mut Vec<Message>,
    number: u32,
    copies: &[Outgoing],
) -> Result<(), AllocError>
    requires few { length messages.old.items < 2 ^ 31 }
    requires sound { All IsSoundCopy copies.now }
    ensures { OnOk result (messages.new.items ≡ messages.old.items ++ Group (group_of (length messages.old.items + 1) number (buckets_of copies.now)) ∷ []) }
{
    let xid = next_xid(messages);
    let buckets = buckets_of(*messages.allocator(), copies)?;
    messages.push(Message::Group(GroupMod {
        xid,
        command: GroupCommand::Add,
        group: number,
        buckets,
    }))?;
    Ok(())
}

/// The buckets of these copies, one for each.
fn buckets_of(alloc: Global, copies: &[Outgoing]) -> Result<Vec<Vec<Action>>, AllocError>
    requires { All IsSoundCopy copies.now }
    ensures { IfOk result (λ bs. map (λ b. b.items) bs.items ≡ buckets_of copies.now) }
{
    let mut buckets = Vec::with_capacity(alloc, copies.len())?;
    for copy in copies {
        let actions = copy_actions(alloc, copy, true)?;
        buckets.push(actions)?;
    }
    Ok(buckets)
}

/// Appends the Adds of the entries of the first table.
fn push_first(
    messages: &mut Vec<Message>,
    store: &Store<Option<Arrive>>,
    entries: &[(Match, NodeId)],
) -> Result<(), AllocError>
    requires few { length messages.old.items < 2 ^ 30 }
    requires entries_few { length entries.now ≤ few }
    requires leaves { All (λ e. IsArrivingLeaf store.now e.1) entries.now }
    ensures { OnOk result (messages.new.items
        ≡ messages.old.items ++ map Flow (adds_from (length messages.old.items + 1) 0 0
        (map first_rule (resolved None store.now entries.now)))) }
{
    let alloc = *messages.allocator();
    let mut index: u16 = 0;
    for entry in entries {
        let (actions, goto) = arrival_instructions(alloc, store, &entry.0, entry.1)?;
        push_add(messages, 0, index, &entry.0, actions, goto)?;
        index += 1;
    }
    Ok(())
}

/// The actions of an entry of the first table, and the table to which it goes.
fn arrival_instructions(
    alloc: Global,
    store: &Store<Option<Arrive>>,
    matching: &Match,
    leaf: NodeId,
) -> Result<(Vec<Action>, Option<u8>), AllocError>
    requires { IsArrivingLeaf store.now leaf }
    ensures { IfOk result (λ r. IsRule (first_rule (matching.now, leaf_at None store.now leaf)) r.0.items r.1) }
{
    match store.view(leaf) {
        View::Leaf(Some(arrive)) => {
            let actions = arrival_actions(alloc, arrive, !is_untagged(matching.vlan))?;
            Ok((actions, Some(1)))
        }
        View::Leaf(None) => Ok((Vec::new(alloc), None)),
        View::Node(_, _, _) => unreachable!(),
    }
}

/// Whether a match is of packets without a VLAN header.
fn is_untagged(vlan: Option<u16>) -> bool
    ensures { result ≡ is_untagged vlan }
{
    match vlan {
        None => false,
        Some(word) => word == 0,
    }
}

/// Appends the Adds of the entries of the second table.
fn push_second(
    messages: &mut Vec<Message>,
    store: &Store<Copies>,
    entries: &[(Match, NodeId)],
    places: &[Option<u64>],
) -> Result<(), AllocError>
    requires few { length messages.old.items < 2 ^ 30 }
    requires entries_few { length entries.now ≤ few }
    requires leaves { All (λ e. IsLeavingLeaf store.now e.1) entries.now }
    requires places { AreFewPlaces places.now }
    requires placed { length places.now ≡ length entries.now }
    ensures { OnOk result (messages.new.items
        ≡ messages.old.items ++ map Flow (adds_from (length messages.old.items + 1) 1 0
        (placed_rules (resolved [] store.now entries.now) places.now))) }
{
    let alloc = *messages.allocator();
    let mut index: u16 = 0;
    for entry in entries {
        let place = places[usize::from(index)];
        let actions = leaving_actions(alloc, leaf_copies(store, entry.1), place)?;
        push_add(messages, 1, index, &entry.0, actions, None)?;
        index += 1;
    }
    Ok(())
}

/// The actions of an entry with these copies: the group at a place, or those of one copy.
fn leaving_actions(
    alloc: Global,
    copies: &[Outgoing],
    place: Option<u64>,
) -> Result<Vec<Action>, AllocError>
    requires sound { All IsSoundCopy copies.now }
    requires place { IfSome place (λ n. n < few) }
    ensures { IfOk result (λ a. a.items ≡ placed_actions copies.now place) }
{
    if let Some(place) = place {
        let actions = vec![in alloc; Action::Group(place as u32 + 1)]?;
        return Ok(actions);
    }
    match copies {
        [] => Ok(Vec::new(alloc)),
        [copy, ..] => {
            let actions = copy_actions(alloc, copy, true)?;
            Ok(actions)
        }
    }
}

/// Appends the Add of an entry.
fn push_add(
    messages: &mut Vec<Message>,
    table: u8,
    index: u16,
    matching: &Match,
    actions: Vec<Action>,
    goto: Option<u8>,
) -> Result<(), AllocError>
    requires { length messages.old.items < 2 ^ 31 }
    ensures { OnOk result (messages.new.items
        ≡ messages.old.items ++ Flow (add_of (length messages.old.items + 1) table index (rule_of matching.now actions.items goto)) ∷ []) }
{
    let xid = next_xid(messages);
    messages.push(Message::Flow(FlowMod {
        xid,
        cookie: 0,
        table,
        command: FlowCommand::Add,
        priority: HIGHEST - index,
        matching: *matching,
        actions,
        goto,
    }))?;
    Ok(())
}
