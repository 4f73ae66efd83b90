ghost use Rattle.std.specs.Prelude.{◌≡◌, ◌++◌, All, map, IfOk, OnOk};
ghost use Rattle.std.specs.List.{flat_map};
ghost use Rattle.pq_model.specs.Lawful.{IsLawfulAction, IsLawfulGroup};
ghost use Rattle.pq_model.specs.Spelling.{bucket_bytes, group_body, group_code};

use crate::action::actions_spelling;
use crate::message::ROOM;
use pq_model::{Action, GroupCommand, GroupMod};
use pq_oxm::write_length;
use std::alloc::{AllocError, Global};

// The number of a command (OpenFlow 1.3.5, section 7.3.4.2).
fn group_code(command: GroupCommand) -> u8
    ensures { result ≡ group_code command }
{
    match command {
        GroupCommand::Add => 0,
        GroupCommand::Modify => 1,
        GroupCommand::Delete => 2,
    }
}

// A bucket: its length, weight 0, no port or group to watch, and its actions.
#[tactic(auto, unfolding(pq_model::specs::Spelling::bucket_bytes))]
fn write_bucket(alloc: Global, actions: &[Action], into: &mut Vec<u8>) -> Result<(), AllocError>
    requires { All IsLawfulAction actions.now }
    ensures { OnOk result (into.new.items ≡ into.old.items ++ bucket_bytes actions.now) }
{
    let spelling = actions_spelling(alloc, actions)?;
    write_length(16 + spelling.len(), into)?;
    into.extend_from_slice(&[0; 2])?;
    into.extend_from_slice(&[0xff; 8])?;
    into.extend_from_slice(&[0; 4])?;
    into.extend_from_slice(&spelling)
}

// The buckets, one after another.
fn write_buckets(
    alloc: Global,
    buckets: &[Vec<Action>],
    into: &mut Vec<u8>,
) -> Result<(), AllocError>
    requires { All (All IsLawfulAction) (map (λ b. b.items) buckets.now) }
    ensures { OnOk result (into.new.items
        ≡ into.old.items ++ flat_map bucket_bytes (map (λ b. b.items) buckets.now)) }
{
    for bucket in buckets {
        write_bucket(alloc, bucket, into)?;
    }
    Ok(())
}

/// What follows the header in the spelling of a group mod of type ALL (OpenFlow 1.3.5, section
/// 7.3.4.2).
#[tactic(auto, unfolding(pq_model::specs::Spelling::group_body))]
pub fn group_body(alloc: Global, group: &GroupMod) -> Result<Vec<u8>, AllocError>
    requires { IsLawfulGroup group.now }
    ensures { IfOk result (λ bytes. bytes.items ≡ group_body group.now) }
{
    let mut bytes = Vec::with_capacity(alloc, ROOM)?;
    bytes.extend_from_slice(&[0, group_code(group.command), 0, 0])?;
    bytes.extend_from_slice(&group.group.to_be_bytes())?;
    write_buckets(alloc, &group.buckets, &mut bytes)?;
    Ok(bytes)
}
