//! The groups that change: those of the last numbers go, and others get buckets.
ghost use Rattle.std.specs.Prelude.{◌≡◌, ◌+◌, ◌-◌, ◌<◌, ◌^◌, ◌++◌, ◌∷◌, suc, List, length, map, IfOk, OnOk};
ghost use Rattle.pq_model.specs.declared.message.Message.TheVariants.{Group};
ghost use Rattle.pq_delta.specs.Added.{Buckets, groups_added};
ghost use Rattle.pq_delta.specs.Changes.{group_deletes_from, group_mods_from, puts_from};
ghost use Rattle.pq_delta.specs.Equal.{same_buckets};

use crate::added::next_group;
use crate::sending::{push_group, push_group_delete};
use pq_model::{Action, GroupCommand, GroupMod, Message};
use std::alloc::{AllocError, Global};

/// Appends the DELETEs of the groups with numbers above `kept`, of this many groups.
pub(crate) fn push_group_deletes(
    alloc: Global,
    messages: &mut Vec<Message>,
    kept: u32,
    groups: u32,
) -> Result<(), AllocError>
    ensures { OnOk result (messages.new.items
        ≡ messages.old.items ++ map Group (group_deletes_from (length messages.old.items + 1) (suc kept) (groups - kept))) }
{
    let mut number = kept;
    while number < groups {
        number += 1;
        push_group_delete(alloc, messages, number)?;
    }
    Ok(())
}

/// Appends the ADDs and MODIFYs that give groups the buckets that the new messages give them.
pub(crate) fn push_groups(
    alloc: Global,
    messages: &mut Vec<Message>,
    old: &[Message],
    new: &[Message],
) -> Result<(), AllocError>
    requires { length new.now < 2 ^ 32 }
    ensures { OnOk result (messages.new.items
        ≡ messages.old.items ++ map Group (group_mods_from (length messages.old.items + 1)
        (puts_from 1 (groups_added old.now) (groups_added new.now)))) }
{
    let mut number: u32 = 0;
    let mut olds = old;
    let mut news = new;
    while let Some((group, after)) = next_group(news) {
        number += 1;
        olds = put_group(alloc, messages, number, olds, group)?;
        news = after;
    }
    Ok(())
}

/// Appends the message that gives the first of the old groups that are left these buckets, or a new group where none is left.
/// Gives the old messages after this group.
fn put_group<'a>(
    alloc: Global,
    messages: &mut Vec<Message>,
    number: u32,
    olds: &'a [Message],
    group: &GroupMod,
) -> Result<&'a [Message], AllocError>
    ensures { IfOk result (λ rest. (bs : List Buckets)
        → messages.new.items ++ map Group (group_mods_from (length messages.new.items + 1)
        (puts_from (suc number) (groups_added rest.now) bs))
        ≡ messages.old.items ++ map Group (group_mods_from (length messages.old.items + 1) (puts_from number (groups_added olds.now) (group.now.buckets ∷ bs)))) }
{
    let Some((before, rest)) = next_group(olds) else {
        push_group(alloc, messages, GroupCommand::Add, number, group)?;
        return Ok(olds);
    };
    if same_buckets(&before.buckets, &group.buckets) {
        return Ok(rest);
    }
    push_group(alloc, messages, GroupCommand::Modify, number, group)?;
    Ok(rest)
}

/// Whether two groups have the same buckets.
pub(crate) fn same_buckets(one: &[Vec<Action>], other: &[Vec<Action>]) -> bool
    ensures { result ≡ same_buckets (map (λ b. b.items) one.now) (map (λ b. b.items) other.now) }
{
    one == other
}
