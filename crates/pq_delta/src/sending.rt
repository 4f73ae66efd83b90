//! Single messages, appended with the next transaction id.
ghost use Rattle.std.specs.Prelude.{◌≡◌, ◌<◌, ◌+◌, ◌^◌, ◌++◌, ◌∷◌, [], length, map, IfOk, OnOk};
ghost use Rattle.pq_model.specs.declared.message.Message.TheVariants.{Barrier, Flow, Group};
ghost use Rattle.pq_model.specs.SwitchMachine.{entry_of};
ghost use Rattle.pq_delta.specs.Changes.{add_of, delete_of, group_delete_of, group_mod_of};

use pq_model::{Action, FlowCommand, FlowMod, GroupCommand, GroupMod, Message};
use std::alloc::{AllocError, Global};

/// The greatest transaction id.
const LAST_XID: usize = 0xffff_ffff;

/// The transaction id of the next message, counted from 1. There is no memory for more messages than there are ids.
fn next_xid(messages: &[Message]) -> Result<u32, AllocError>
    ensures { IfOk result (λ xid. xid ≡ length messages.now + 1) }
{
    let count = messages.len();
    if count >= LAST_XID {
        return Err(AllocError);
    }
    Ok(count as u32 + 1)
}

/// Appends a barrier.
pub(crate) fn push_barrier(messages: &mut Vec<Message>) -> Result<(), AllocError>
    ensures appended { OnOk result (messages.new.items ≡ messages.old.items ++ Barrier (length messages.old.items + 1) ∷ []) }
    ensures few { OnOk result (length messages.new.items < 2 ^ 32) }
{
    let xid = next_xid(messages)?;
    messages.push(Message::Barrier { xid })?;
    Ok(())
}

/// Appends the DeleteStrict of the entry of a flow mod.
pub(crate) fn push_delete(
    alloc: Global,
    messages: &mut Vec<Message>,
    flow: &FlowMod,
) -> Result<(), AllocError>
    ensures { OnOk result (messages.new.items ≡ messages.old.items ++ Flow (delete_of (length messages.old.items + 1) (entry_of flow.now)) ∷ []) }
{
    let xid = next_xid(messages)?;
    messages.push(Message::Flow(FlowMod {
        xid,
        cookie: 0,
        table: flow.table,
        command: FlowCommand::DeleteStrict,
        priority: flow.priority,
        matching: flow.matching,
        actions: Vec::new(alloc),
        goto: None,
    }))?;
    Ok(())
}

/// The Add of the entry of a flow mod, with this transaction id.
fn add_of(alloc: Global, xid: u32, flow: &FlowMod) -> Result<FlowMod, AllocError>
    ensures { IfOk result (λ add. add ≡ add_of xid (entry_of flow.now)) }
{
    let actions = Vec::from_slice(alloc, &flow.actions)?;
    Ok(FlowMod {
        xid,
        cookie: flow.cookie,
        table: flow.table,
        command: FlowCommand::Add,
        priority: flow.priority,
        matching: flow.matching,
        actions,
        goto: flow.goto,
    })
}

/// Appends the Add of the entry of a flow mod.
pub(crate) fn push_add(
    alloc: Global,
    messages: &mut Vec<Message>,
    flow: &FlowMod,
) -> Result<(), AllocError>
    ensures { OnOk result (messages.new.items ≡ messages.old.items ++ Flow (add_of (length messages.old.items + 1) (entry_of flow.now)) ∷ []) }
{
    let xid = next_xid(messages)?;
    let add = add_of(alloc, xid, flow)?;
    messages.push(Message::Flow(add))?;
    Ok(())
}

/// Appends the DELETE of a group.
pub(crate) fn push_group_delete(
    alloc: Global,
    messages: &mut Vec<Message>,
    number: u32,
) -> Result<(), AllocError>
    ensures { OnOk result (messages.new.items ≡ messages.old.items ++ Group (group_delete_of (length messages.old.items + 1) number) ∷ []) }
{
    let xid = next_xid(messages)?;
    messages.push(Message::Group(GroupMod {
        xid,
        command: GroupCommand::Delete,
        group: number,
        buckets: Vec::new(alloc),
    }))?;
    Ok(())
}

/// Appends the ADD or MODIFY that gives a group the buckets of a group mod.
pub(crate) fn push_group(
    alloc: Global,
    messages: &mut Vec<Message>,
    command: GroupCommand,
    number: u32,
    group: &GroupMod,
) -> Result<(), AllocError>
    ensures { OnOk result (messages.new.items ≡ messages.old.items
        ++ Group (group_mod_of (length messages.old.items + 1) (record { command = command; number = number; buckets = group.now.buckets })) ∷ []) }
{
    let xid = next_xid(messages)?;
    let buckets = bucket_copies(alloc, &group.buckets)?;
    messages.push(Message::Group(GroupMod {
        xid,
        command,
        group: number,
        buckets,
    }))?;
    Ok(())
}

/// Equal buckets, in order.
fn bucket_copies(alloc: Global, buckets: &[Vec<Action>]) -> Result<Vec<Vec<Action>>, AllocError>
    ensures { IfOk result (λ all. map (λ b. b.items) all.items ≡ map (λ b. b.items) buckets.now) }
{
    let mut all = Vec::with_capacity(alloc, buckets.len())?;
    for bucket in buckets {
        let copy = Vec::from_slice(alloc, bucket)?;
        all.push(copy)?;
    }
    Ok(all)
}
