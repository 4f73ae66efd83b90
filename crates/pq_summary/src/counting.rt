//! What an install has, counted over its switches.
ghost use Rattle.std.specs.Prelude.{◌≡◌, ◌^◌, ◌<◌, length, map, sum_by};
ghost use Rattle.pq_model.specs.Install.{port_count};
ghost use Rattle.pq_inspect.specs.Inspection.{count, is_flow_add, is_group_add};

use pq_flowmod::{FlowCommand, GroupCommand, Message};
use pq_topo::Switch;

/// Whether the message adds an entry.
fn is_flow_add(message: &Message) -> bool
    ensures { result ≡ is_flow_add message.now }
{
    match message {
        Message::Flow(flow) => matches!(flow.command, FlowCommand::Add),
        Message::Group(_) => false,
        Message::Barrier { .. } => false,
    }
}

/// Whether the message adds a group.
fn is_group_add(message: &Message) -> bool
    ensures { result ≡ is_group_add message.now }
{
    match message {
        Message::Flow(_) => false,
        Message::Group(group) => matches!(group.command, GroupCommand::Add),
        Message::Barrier { .. } => false,
    }
}

/// How many of the messages add an entry.
fn entries_in(messages: &[Message]) -> usize
    ensures { result ≡ count is_flow_add messages.now }
{
    messages
        .iter()
        .filter(|message| is_flow_add(message))
        .count()
}

/// How many of the messages add a group.
fn groups_in(messages: &[Message]) -> usize
    ensures { result ≡ count is_group_add messages.now }
{
    messages
        .iter()
        .filter(|message| is_group_add(message))
        .count()
}

/// How many messages to all switches add an entry.
pub fn entries(lists: &[Vec<Message>]) -> usize
    requires { sum_by (count is_flow_add) (map (λ ms. ms.items) lists.now) < 2 ^ 64 }
    ensures { result ≡ sum_by (count is_flow_add) (map (λ ms. ms.items) lists.now) }
{
    let mut total = 0;
    for messages in lists {
        total += entries_in(messages);
    }
    total
}

/// How many messages to all switches add a group.
pub fn groups(lists: &[Vec<Message>]) -> usize
    requires { sum_by (count is_group_add) (map (λ ms. ms.items) lists.now) < 2 ^ 64 }
    ensures { result ≡ sum_by (count is_group_add) (map (λ ms. ms.items) lists.now) }
{
    let mut total = 0;
    for messages in lists {
        total += groups_in(messages);
    }
    total
}

/// How many messages there are to all switches.
pub fn messages(lists: &[Vec<Message>]) -> usize
    requires { sum_by length (map (λ ms. ms.items) lists.now) < 2 ^ 64 }
    ensures { result ≡ sum_by length (map (λ ms. ms.items) lists.now) }
{
    let mut total = 0;
    for messages in lists {
        total += messages.len();
    }
    total
}

/// How many ports the switches have.
pub fn ports(switches: &[Switch]) -> usize
    requires { port_count switches.now < 2 ^ 64 }
    ensures { result ≡ port_count switches.now }
{
    let mut total = 0;
    for switch in switches {
        total += switch.ports.len();
    }
    total
}
