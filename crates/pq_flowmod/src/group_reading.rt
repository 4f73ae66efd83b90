ghost use Rattle.std.specs.Prelude.{◌≡◌, ◌<◌, ◌≤◌, ◌^◌, ◌++◌, List, ℕ, All, IfOk, IfSome, IsSomeAnd, length, map};
ghost use Rattle.std.specs.List.{flat_map};
ghost use Rattle.std.specs.declared.option.Option.TheVariants.{Some};
ghost use Rattle.pq_model.specs.declared.action.Action.{Action};
ghost use Rattle.pq_model.specs.declared.group_mod.GroupCommand.{GroupCommand};
ghost use Rattle.pq_model.specs.declared.group_mod.GroupCommand.TheVariants.{Delete};
ghost use Rattle.pq_model.specs.Lawful.{HasBuckets, IsLawfulGroup};
ghost use Rattle.pq_model.specs.Mods.{GroupValue};
ghost use Rattle.pq_model.specs.Spelling.{bucket_bytes, group_body, group_code};
ghost use Rattle.pq_flowmod.specs.Reading.{IsReadable};

use crate::action_reading::actions_of;
use crate::rules::{are_buckets, is_group_number, is_removed};
use pq_model::{Action, GroupCommand, GroupMod};
use pq_oxm::u32_of;
use std::alloc::{AllocError, Global};

// The length of a bucket that is at the front, as it tells it itself.
fn bucket_len(bytes: &[u8]) -> Option<usize>
    ensures within { IfSome result (λ size. (16 ≤ size) × (size ≤ length bytes.now)) }
    ensures told { (actions : List Action) (more : List ℕ) → length (bucket_bytes actions) < 2 ^ 16
        → bytes.now ≡ bucket_bytes actions ++ more → result ≡ Some (length (bucket_bytes actions)) }
{
    if bytes.len() < 16 {
        return None;
    }
    let size = usize::from(u16::from_be_bytes([bytes[0], bytes[1]]));
    if size < 16 {
        return None;
    }
    if bytes.len() < size {
        return None;
    }
    Some(size)
}

// The buckets whose spellings the bytes are, one after another. Where the bytes are the spellings of no
// buckets of lawful actions, it may be any or none.
fn buckets_of(alloc: Global, bytes: &[u8]) -> Result<Option<Vec<Vec<Action>>>, AllocError>
    ensures { IfOk result (λ found. (whole : List (List Action)) → All IsReadable whole
        → bytes.now ≡ flat_map bucket_bytes whole
        → IsSomeAnd found (λ buckets. map (λ b. b.items) buckets.items ≡ whole)) }
{
    let mut buckets = Vec::new(alloc);
    let mut rest = bytes;
    while !rest.is_empty() {
        let Some(size) = bucket_len(rest) else {
            return Ok(None);
        };
        let Some(actions) = actions_of(alloc, &rest[16..size])? else {
            return Ok(None);
        };
        buckets.push(actions)?;
        rest = &rest[size..];
    }
    Ok(Some(buckets))
}

// The buckets that the bytes spell, where they are lawful and there are any.
fn lawful_buckets(alloc: Global, bytes: &[u8]) -> Result<Option<Vec<Vec<Action>>>, AllocError>
    ensures lawful { IfOk result (λ found. IfSome found (λ buckets. HasBuckets (map (λ b. b.items) buckets.items))) }
    ensures said { IfOk result (λ found. (whole : List (List Action)) → HasBuckets whole
        → length (flat_map bucket_bytes whole) < 2 ^ 16 → bytes.now ≡ flat_map bucket_bytes whole
        → IsSomeAnd found (λ buckets. map (λ b. b.items) buckets.items ≡ whole)) }
{
    let Some(buckets) = buckets_of(alloc, bytes)? else {
        return Ok(None);
    };
    if !are_buckets(&buckets) {
        return Ok(None);
    }
    Ok(Some(buckets))
}

// The command of a number (OpenFlow 1.3.5, section 7.3.4.2).
fn command_of(code: u8) -> Option<GroupCommand>
    ensures { (command : GroupCommand) → code ≡ group_code command → result ≡ Some command }
{
    match code {
        0 => Some(GroupCommand::Add),
        1 => Some(GroupCommand::Modify),
        2 => Some(GroupCommand::Delete),
        _ => None,
    }
}

// A message that removes a group, or all groups, where the number is one of a group or of all.
fn removal(alloc: Global, xid: u32, group: u32) -> Option<GroupMod>
    ensures lawful { IfSome result IsLawfulGroup }
    ensures said { (g : GroupValue) → IsLawfulGroup g → g.command ≡ Delete → g.xid ≡ xid → g.group ≡ group → result ≡ Some g }
{
    if !is_removed(group) {
        return None;
    }
    Some(GroupMod {
        xid,
        command: GroupCommand::Delete,
        group,
        buckets: Vec::new(alloc),
    })
}

// A message that puts a group with the buckets that the bytes spell, where its number and they are lawful.
fn filled(
    alloc: Global,
    xid: u32,
    command: GroupCommand,
    group: u32,
    bytes: &[u8],
) -> Result<Option<GroupMod>, AllocError>
    requires { command ≡ Delete → ⊥ }
    ensures lawful { IfOk result (λ found. IfSome found IsLawfulGroup) }
    ensures said { IfOk result (λ found. (g : GroupValue) → IsLawfulGroup g → g.command ≡ command → g.xid ≡ xid → g.group ≡ group
        → length (flat_map bucket_bytes g.buckets) < 2 ^ 16 → bytes.now ≡ flat_map bucket_bytes g.buckets → found ≡ Some g) }
{
    if !is_group_number(group) {
        return Ok(None);
    }
    let Some(buckets) = lawful_buckets(alloc, bytes)? else {
        return Ok(None);
    };
    Ok(Some(GroupMod {
        xid,
        command,
        group,
        buckets,
    }))
}

/// The lawful group mod whose spelling the bytes are after the header (OpenFlow 1.3.5, section 7.3.4.2).
/// Where they are none's, it may be any or none.
pub fn group_of(alloc: Global, xid: u32, body: &[u8]) -> Result<Option<GroupMod>, AllocError>
    ensures lawful { IfOk result (λ found. IfSome found IsLawfulGroup) }
    ensures said { IfOk result (λ found. (g : GroupValue) → IsLawfulGroup g → g.xid ≡ xid → length (group_body g) < 2 ^ 16
        → body.now ≡ group_body g → found ≡ Some g) }
{
    if body.len() < 8 {
        return Ok(None);
    }
    let group = u32_of(&body[4..8]);
    match command_of(body[1]) {
        None => Ok(None),
        Some(GroupCommand::Add) => filled(alloc, xid, GroupCommand::Add, group, &body[8..]),
        Some(GroupCommand::Modify) => filled(alloc, xid, GroupCommand::Modify, group, &body[8..]),
        Some(GroupCommand::Delete) => Ok(removal(alloc, xid, group)),
    }
}
