//! How many bytes messages take.
ghost use Rattle.std.specs.Prelude.{◌≡◌, ◌^◌, ◌<◌, ◌≤◌, map};
ghost use Rattle.pq_summary.specs.Lengths.{
  action_length,
  apply_length,
  bucket_length,
  flow_length,
  goto_length,
  group_length,
  list_length,
  message_length,
};

use crate::matching_length::match_length;
use crate::spelled::{Spelled, total};
use pq_flowmod::{Action, FlowMod, GroupMod, Message};

impl Spelled for Action {
    ghost bytes = { action_length };

    fn length(&self) -> usize {
        match self {
            Action::Output(_) => 16,
            Action::PushVlan => 8,
            Action::PopVlan => 8,
            Action::Group(_) => 8,
            Action::SetVlan(_) => 16,
            Action::SetField(..) => 16,
        }
    }
}

impl Spelled for Vec<Action> {
    ghost bytes = { λ actions. bucket_length actions.items };

    fn length(&self) -> usize {
        16 + total(self)
    }
}

/// How many bytes the instruction that applies actions takes, where there are actions.
fn apply_length(actions: &[Action]) -> usize
    requires { apply_length actions.now < 2 ^ 64 }
    ensures { result ≡ apply_length actions.now }
{
    if actions.is_empty() {
        return 0;
    }
    8 + total(actions)
}

/// How many bytes the instruction that goes on in a table takes, where there is one.
fn goto_length(goto: Option<u8>) -> usize
    ensures value { result ≡ goto_length goto }
    ensures within { result ≤ 8 }
{
    match goto {
        None => 0,
        Some(_) => 8,
    }
}

fn flow_length(flow: &FlowMod) -> usize
    requires { flow_length flow.now < 2 ^ 64 }
    ensures { result ≡ flow_length flow.now }
{
    48 + match_length(&flow.matching) + apply_length(&flow.actions) + goto_length(flow.goto)
}

fn group_length(group: &GroupMod) -> usize
    requires { group_length group.now < 2 ^ 64 }
    ensures { result ≡ group_length group.now }
{
    16 + total(&group.buckets)
}

impl Spelled for Message {
    ghost bytes = { message_length };

    fn length(&self) -> usize {
        match self {
            Message::Flow(flow) => flow_length(flow),
            Message::Group(group) => group_length(group),
            Message::Barrier { .. } => 8,
        }
    }
}

impl Spelled for Vec<Message> {
    ghost bytes = { λ messages. list_length messages.items };

    fn length(&self) -> usize {
        4 + total(self)
    }
}
