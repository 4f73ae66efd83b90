ghost use Rattle.std.specs.Prelude.{◌≡◌, ◌↔◌, length, All, IfErr, IfOk, IsTrue, map};
ghost use Rattle.std.specs.List.{flat_map};
ghost use Rattle.pq_model.specs.Install.{IsOldMatch, IsOldMessage, list_bytes};
ghost use Rattle.pq_model.specs.Spelling.{message_bytes};
ghost use Rattle.pq_install.specs.Damage.{IsReadList, IsReadMessage, ListFailsAt, ListsFail, MayStandIn};
ghost use Rattle.pq_install.specs.Front.{IsAtFront};
ghost use Rattle.pq_install.specs.Units.{ListFails, Tells, UnitFails};

use crate::fault::Fault;
use crate::read::front::u32_at;
use crate::version::Version;
use pq_fields::IPV6;
use pq_flowmod::{Message, MessageFault, read_message};
use pq_oxm::Match;
use std::alloc::Global;

// Whether an install of the old spelling may have the match.
fn is_old_match(matching: &Match) -> bool
    ensures { IsTrue result ↔ IsOldMatch matching.now }
{
    if matching.ipv6_src.is_some() {
        return false;
    }
    if matching.ipv6_dst.is_some() {
        return false;
    }
    if matching.ip_proto.is_none() {
        return true;
    }
    match matching.eth_type {
        Some(number) => u64::from(number) != IPV6,
        None => true,
    }
}

// Whether an install of the old spelling may have the message.
fn is_old(message: &Message) -> bool
    ensures { IsTrue result ↔ IsOldMessage message.now }
{
    match message {
        Message::Flow(flow) => is_old_match(&flow.matching),
        Message::Group(_) => true,
        Message::Barrier { .. } => true,
    }
}

// Whether an install of the spelling may have the message.
fn may_stand_in(version: Version, message: &Message) -> bool
    ensures { IsTrue result ↔ MayStandIn version message.now }
{
    match version {
        Version::Old => is_old(message),
        Version::New => true,
    }
}

// The message at the front that the spelling has.
fn next_message(alloc: Global, version: Version, bytes: &[u8]) -> Result<(Message, &[u8]), Fault>
    ensures ok { IfOk result (λ r. IsAtFront (IsReadMessage version) message_bytes bytes.now r.0 r.1.now) }
    ensures err { IfErr result (Tells (UnitFails (IsReadMessage version) message_bytes bytes.now)) }
{
    match read_message(alloc, bytes, 0) {
        Ok((message, end)) => {
            if !may_stand_in(version, &message) {
                return Err(Fault::Damaged { left: bytes.len() });
            }
            let (_, rest) = bytes.split_at(end);
            Ok((message, rest))
        }
        Err(MessageFault::BadMessage { .. }) => Err(Fault::Damaged { left: bytes.len() }),
        Err(MessageFault::Memory) => Err(Fault::Memory),
    }
}

// This many messages.
fn message_list(
    alloc: Global,
    version: Version,
    count: u32,
    bytes: &[u8],
) -> Result<(Vec<Message>, &[u8]), Fault>
    ensures length { IfOk result (λ r. length r.0.items ≡ count) }
    ensures ok { IfOk result (λ r. IsAtFront (All (IsReadMessage version)) (flat_map message_bytes) bytes.now r.0.items r.1.now) }
    ensures err { IfErr result (Tells (ListFails (All (IsReadMessage version)) message_bytes count bytes.now)) }
{
    let mut messages = Vec::new(alloc);
    let mut rest = bytes;
    for _ in 0..count {
        let (message, after) = next_message(alloc, version, rest)?;
        messages.push(message)?;
        rest = after;
    }
    Ok((messages, rest))
}

// The messages to a switch, after their count.
fn list_at(alloc: Global, version: Version, bytes: &[u8]) -> Result<(Vec<Message>, &[u8]), Fault>
    ensures ok { IfOk result (λ r. IsAtFront (IsReadList version) list_bytes bytes.now r.0.items r.1.now) }
    ensures err { IfErr result (Tells (ListFailsAt version bytes.now)) }
{
    match u32_at(bytes) {
        Some((count, rest)) => message_list(alloc, version, count, rest),
        None => Err(Fault::Damaged { left: bytes.len() }),
    }
}

/// The messages to each of this many switches.
pub fn lists_at(
    alloc: Global,
    version: Version,
    count: usize,
    bytes: &[u8],
) -> Result<(Vec<Vec<Message>>, &[u8]), Fault>
    ensures length { IfOk result (λ r. length r.0.items ≡ count) }
    ensures ok { IfOk result (λ r. IsAtFront (All (IsReadList version)) (flat_map list_bytes) bytes.now (map (λ ms. ms.items) r.0.items) r.1.now) }
    ensures err { IfErr result (Tells (ListsFail version count bytes.now)) }
{
    let mut lists = Vec::new(alloc);
    let mut rest = bytes;
    for _ in 0..count {
        let (list, after) = list_at(alloc, version, rest)?;
        lists.push(list)?;
        rest = after;
    }
    Ok((lists, rest))
}
