ghost use Rattle.std.specs.Prelude.{◌≡◌, ◌++◌, All, OnOk};
ghost use Rattle.serde_json.specs.Written.{compact_text};
ghost use Rattle.pq_model.specs.Lawful.{IsLawfulMessage};
ghost use Rattle.pq_inspect.specs.Inspection.{count, is_flow_add, is_group_add, list, message_data};

use crate::hex::write_hexadecimal;
use crate::written::separate;
use pq_flowmod::{FlowCommand, GroupCommand, Message, write_message};
use std::alloc::{AllocError, Global};

// Whether the message adds an entry.
fn is_flow_add(message: &Message) -> bool
    ensures { result ≡ is_flow_add message.now }
{
    match message {
        Message::Flow(flow) => matches!(flow.command, FlowCommand::Add),
        Message::Group(_) => false,
        Message::Barrier { .. } => false,
    }
}

// Whether the message adds a group.
fn is_group_add(message: &Message) -> bool
    ensures { result ≡ is_group_add message.now }
{
    match message {
        Message::Flow(_) => false,
        Message::Group(group) => matches!(group.command, GroupCommand::Add),
        Message::Barrier { .. } => false,
    }
}

/// How many of the messages add an entry.
pub fn entries(messages: &[Message]) -> usize
    ensures { result ≡ count is_flow_add messages.now }
{
    messages
        .iter()
        .filter(|message| is_flow_add(message))
        .count()
}

/// How many of the messages add a group.
pub fn groups(messages: &[Message]) -> usize
    ensures { result ≡ count is_group_add messages.now }
{
    messages
        .iter()
        .filter(|message| is_group_add(message))
        .count()
}

// Appends a message as a string; its bytes are spelled in the buffer, whatever stands there.
fn write_spelled(
    alloc: Global,
    message: &Message,
    buffer: &mut Vec<u8>,
    into: &mut Vec<u8>,
) -> Result<(), AllocError>
    requires { IsLawfulMessage message.now }
    ensures { OnOk result
        (into.new.items ≡ into.old.items ++ compact_text (message_data message.now)) }
{
    buffer.clear();
    write_message(alloc, message, buffer)?;
    write_hexadecimal(buffer, into)
}

/// Appends the list of the messages, each as hexadecimal text.
pub fn write_messages(
    alloc: Global,
    messages: &[Message],
    into: &mut Vec<u8>,
) -> Result<(), AllocError>
    requires { All IsLawfulMessage messages.now }
    ensures { OnOk result
        (into.new.items ≡ into.old.items ++ compact_text (list message_data messages.now)) }
{
    let mut buffer = Vec::new(alloc);
    into.push(b'[')?;
    for index in 0..messages.len() {
        separate(index, into)?;
        write_spelled(alloc, &messages[index], &mut buffer, into)?;
    }
    into.push(b']')?;
    Ok(())
}
