//! Copies of messages.
ghost use Rattle.std.specs.Prelude.{◌≡◌, IfOk, map};

use crate::action::Action;
use crate::flow_mod::FlowMod;
use crate::group_mod::GroupMod;
use crate::message::Message;
use std::alloc::{AllocError, Global};

/// Equal actions, in order.
fn copies(alloc: Global, actions: &[Action]) -> Result<Vec<Action>, AllocError>
    ensures { IfOk result (λ all. all.items ≡ actions.now) }
{
    let mut all = Vec::with_capacity(alloc, actions.len())?;
    all.extend_from_slice(actions)?;
    Ok(all)
}

/// Equal buckets, in order.
fn bucket_copies(alloc: Global, buckets: &[Vec<Action>]) -> Result<Vec<Vec<Action>>, AllocError>
    ensures { IfOk result (λ all. map (λ b. b.items) all.items ≡ map (λ b. b.items) buckets.now) }
{
    let mut all = Vec::with_capacity(alloc, buckets.len())?;
    for bucket in buckets {
        let copy = copies(alloc, bucket)?;
        all.push(copy)?;
    }
    Ok(all)
}

/// An equal flow mod.
fn flow_copy(alloc: Global, flow: &FlowMod) -> Result<FlowMod, AllocError>
    ensures { IfOk result (λ f. f ≡ flow.now) }
{
    let actions = copies(alloc, &flow.actions)?;
    Ok(FlowMod {
        xid: flow.xid,
        cookie: flow.cookie,
        table: flow.table,
        command: flow.command,
        priority: flow.priority,
        matching: flow.matching,
        actions,
        goto: flow.goto,
    })
}

/// An equal group mod.
fn group_copy(alloc: Global, group: &GroupMod) -> Result<GroupMod, AllocError>
    ensures { IfOk result (λ g. g ≡ group.now) }
{
    let buckets = bucket_copies(alloc, &group.buckets)?;
    Ok(GroupMod {
        xid: group.xid,
        command: group.command,
        group: group.group,
        buckets,
    })
}

impl Message {
    /// An equal message; it fails only where there is no memory for it.
    pub fn copy(&self, alloc: Global) -> Result<Message, AllocError>
        ensures { IfOk result (λ message. message ≡ self.now) }
    {
        match self {
            Message::Flow(flow) => Ok(Message::Flow(flow_copy(alloc, flow)?)),
            Message::Group(group) => Ok(Message::Group(group_copy(alloc, group)?)),
            Message::Barrier { xid } => Ok(Message::Barrier { xid: *xid }),
        }
    }
}
