//! The frame of what changes the tables.
ghost use Rattle.std.specs.Prelude.{◌≡◌, ◌++◌, All, IfOk, OnOk, length, map};
ghost use Rattle.std.specs.Int.{to_be_bytes, w16, w32, w64};
ghost use Rattle.std.specs.List.{flat_map};
ghost use Rattle.pq_model.specs.Install.{IsLawfulList, list_bytes};
ghost use Rattle.pq_model.specs.Lawful.{IsLawfulMessage};
ghost use Rattle.pq_model.specs.Spelling.{message_bytes};
ghost use Rattle.pq_command.specs.Frames.{change_bytes, change_frame, changes_bytes};
ghost use Rattle.pq_command.specs.Sessions.{AreLawfulChanges};

use crate::session::frames::framed;
use pq_flowmod::{Message, write_message};
use std::alloc::{AllocError, Global};

/// Appends the datapath number of a switch, in eight bytes.
fn push_datapath(datapath: u64, into: &mut Vec<u8>) -> Result<(), AllocError>
    ensures { OnOk result (into.new.items ≡ into.old.items ++ to_be_bytes w64 datapath) }
{
    into.extend_from_slice(&datapath.to_be_bytes())
}

/// Appends a number of messages, in four bytes.
fn push_count(count: usize, into: &mut Vec<u8>) -> Result<(), AllocError>
    ensures { OnOk result (into.new.items ≡ into.old.items ++ to_be_bytes w32 count) }
{
    into.extend_from_slice(&count.to_be_bytes()[4..])
}

/// Appends both.
fn push_heading(datapath: u64, count: usize, into: &mut Vec<u8>) -> Result<(), AllocError>
    ensures { OnOk result (into.new.items ≡ into.old.items ++ (to_be_bytes w64 datapath ++ to_be_bytes w32 count)) }
{
    push_datapath(datapath, into)?;
    push_count(count, into)
}

/// Appends messages.
fn push_messages(alloc: Global, messages: &[Message], into: &mut Vec<u8>) -> Result<(), AllocError>
    requires { All IsLawfulMessage messages.now }
    ensures { OnOk result (into.new.items ≡ into.old.items ++ flat_map message_bytes messages.now) }
{
    for message in messages {
        write_message(alloc, message, into)?;
    }
    Ok(())
}

/// Appends the datapath number of a switch, and the messages to it with their number.
fn push_switch(
    alloc: Global,
    change: &(u64, Vec<Message>),
    into: &mut Vec<u8>,
) -> Result<(), AllocError>
    requires { IsLawfulList change.now.1.items }
    ensures { OnOk result (into.new.items ≡ into.old.items ++ change_bytes (change.now.0, change.now.1.items)) }
{
    push_heading(change.0, change.1.len(), into)?;
    push_messages(alloc, &change.1, into)
}

/// Appends this of each switch.
fn push_switches(
    alloc: Global,
    changed: &[(u64, Vec<Message>)],
    into: &mut Vec<u8>,
) -> Result<(), AllocError>
    requires { AreLawfulChanges (map (λ p. (p.0, p.1.items)) changed.now) }
    ensures { OnOk result (into.new.items ≡ into.old.items ++ flat_map change_bytes (map (λ p. (p.0, p.1.items)) changed.now)) }
{
    for change in changed {
        push_switch(alloc, change, into)?;
    }
    Ok(())
}

/// The frame of the switches whose tables change, with the messages to each.
pub(crate) fn change_frame(
    alloc: Global,
    changed: &[(u64, Vec<Message>)],
) -> Result<Vec<u8>, AllocError>
    requires { AreLawfulChanges (map (λ p. (p.0, p.1.items)) changed.now) }
    ensures { IfOk result (λ bytes. bytes.items ≡ change_frame (map (λ p. (p.0, p.1.items)) changed.now)) }
{
    let mut content = Vec::new(alloc);
    content.extend_from_slice(&changed.len().to_be_bytes()[6..])?;
    push_switches(alloc, changed, &mut content)?;
    framed(alloc, b'M', &content)
}
