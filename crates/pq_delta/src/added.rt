//! What messages add.
ghost use Rattle.std.specs.Prelude.{◌≡◌, ◌<◌, ◌^◌, ◌∷◌, [], None, Some, length, IfSome, MatchOption};
ghost use Rattle.pq_model.specs.SwitchMachine.{entry_of};
ghost use Rattle.pq_delta.specs.Added.{entry_added, group_added, groups_added};

use pq_model::{FlowCommand, FlowMod, GroupCommand, GroupMod, Message};

/// The message as the Add of an entry, if it is one.
pub(crate) fn added_entry(message: &Message) -> Option<&FlowMod>
    ensures { MatchOption result (entry_added message.now ≡ None) (λ flow. entry_added message.now ≡ Some (entry_of flow.now)) }
{
    match message {
        Message::Flow(flow) => match flow.command {
            FlowCommand::Add => Some(flow),
            FlowCommand::DeleteAll => None,
            FlowCommand::DeleteStrict => None,
        },
        Message::Group(_) => None,
        Message::Barrier { .. } => None,
    }
}

/// The message as the ADD of a group, if it is one.
pub(crate) fn added_group(message: &Message) -> Option<&GroupMod>
    ensures { MatchOption result (group_added message.now ≡ None) (λ group. group_added message.now ≡ Some group.now.buckets) }
{
    match message {
        Message::Flow(_) => None,
        Message::Group(group) => match group.command {
            GroupCommand::Add => Some(group),
            GroupCommand::Modify => None,
            GroupCommand::Delete => None,
        },
        Message::Barrier { .. } => None,
    }
}

/// The first group that messages add, and the messages after it.
pub(crate) fn next_group(messages: &[Message]) -> Option<(&GroupMod, &[Message])>
    ensures groups { MatchOption result (groups_added messages.now ≡ []) (λ r. groups_added messages.now ≡ r.0.now.buckets ∷ groups_added r.1.now) }
    ensures shorter { IfSome result (λ r. length r.1.now < length messages.now) }
{
    let mut rest = messages;
    while let [first, after @ ..] = rest {
        if let Some(group) = added_group(first) {
            return Some((group, after));
        }
        rest = after;
    }
    None
}

/// How many groups messages add.
pub(crate) fn group_count(messages: &[Message]) -> u32
    requires { length messages.now < 2 ^ 32 }
    ensures { result ≡ length (groups_added messages.now) }
{
    let mut count: u32 = 0;
    for message in messages {
        if added_group(message).is_some() {
            count += 1;
        }
    }
    count
}
