ghost use Rattle.std.specs.Prelude.{◌≡◌, ◌++◌, All, map, OnOk};
ghost use Rattle.std.specs.List.{flat_map};
ghost use Rattle.pq_model.specs.Lawful.{IsLawfulMessage};
ghost use Rattle.pq_model.specs.Spelling.{message_bytes};
ghost use Rattle.pq_model.specs.Install.{IsLawfulList, list_bytes};

use crate::numbers::write_count;
use pq_flowmod::{Message, write_message};
use std::alloc::{AllocError, Global};

fn write_messages(alloc: Global, messages: &[Message], into: &mut Vec<u8>) -> Result<(), AllocError>
    requires { All IsLawfulMessage messages.now }
    ensures { OnOk result (into.new.items ≡ into.old.items ++ flat_map message_bytes messages.now) }
{
    for message in messages {
        write_message(alloc, message, into)?;
    }
    Ok(())
}

// The messages to a switch: their count, and the messages.
fn write_list(alloc: Global, messages: &[Message], into: &mut Vec<u8>) -> Result<(), AllocError>
    requires { IsLawfulList messages.now }
    ensures { OnOk result (into.new.items ≡ into.old.items ++ list_bytes messages.now) }
{
    write_count(messages.len(), into)?;
    write_messages(alloc, messages, into)
}

/// Appends the messages to each switch.
pub fn write_lists(
    alloc: Global,
    lists: &[Vec<Message>],
    into: &mut Vec<u8>,
) -> Result<(), AllocError>
    requires { All IsLawfulList (map (λ ms. ms.items) lists.now) }
    ensures { OnOk result (into.new.items
        ≡ into.old.items ++ flat_map list_bytes (map (λ ms. ms.items) lists.now)) }
{
    for list in lists {
        write_list(alloc, list, into)?;
    }
    Ok(())
}
