ghost use Rattle.std.specs.Prelude.{◌≡◌, ◌+◌, ◌<◌, ◌≤◌, ◌^◌, ◌++◌, ℕ, List, length, IfErr, IfOk, IfSome, MatchOption};
ghost use Rattle.std.specs.declared.option.Option.TheVariants.{Some};
ghost use Rattle.pq_model.specs.declared.message.Message.{Message};
ghost use Rattle.pq_model.specs.declared.message.Message.TheVariants.{Flow, Group};
ghost use Rattle.pq_model.specs.Lawful.{
  IsLawfulContent,
  IsLawfulFlow,
  IsLawfulGroup,
  IsLawfulMessage,
};
ghost use Rattle.pq_model.specs.Mods.{FlowValue, GroupValue};
ghost use Rattle.pq_model.specs.Spelling.{flow_body, group_body, message_bytes};
ghost use Rattle.pq_oxm.specs.Standing.{StandsAt};
ghost use Rattle.pq_flowmod.specs.Faults.{HasNoMessageAt, IsMessageFault};
ghost use Rattle.pq_flowmod.specs.Reading.{message_body, message_kind, message_xid};

use crate::flow_reading::flow_of;
use crate::group_reading::group_of;
use crate::message::{BARRIER_REQUEST, FLOW_MOD, GROUP_MOD, spelling};
use pq_model::Message;
use pq_oxm::u32_of;
use std::alloc::{AllocError, Global};
use thiserror::Error;

/// Why no message is read.
#[derive(Debug, Drop, Error)]
pub enum MessageFault {
    /// No message is spelled at this byte.
    #[error("no message begins at byte {at}")]
    BadMessage { at: usize },
    /// There is not enough memory.
    #[error("out of memory")]
    Memory,
}

// The greatest length that the two bytes of a header state.
const LONGEST: usize = 0xffff;

// The flow mod whose body this is, as a message.
fn flow_message(alloc: Global, xid: u32, body: &[u8]) -> Result<Option<Message>, AllocError>
    ensures lawful { IfOk result (λ found. IfSome found IsLawfulContent) }
    ensures said { IfOk result (λ found. (f : FlowValue) → IsLawfulFlow f → f.xid ≡ xid → length (flow_body f) < 2 ^ 16
        → body.now ≡ flow_body f → found ≡ Some (Flow f)) }
{
    let Some(flow) = flow_of(alloc, xid, body)? else {
        return Ok(None);
    };
    Ok(Some(Message::Flow(flow)))
}

// The group mod whose body this is, as a message.
fn group_message(alloc: Global, xid: u32, body: &[u8]) -> Result<Option<Message>, AllocError>
    ensures lawful { IfOk result (λ found. IfSome found IsLawfulContent) }
    ensures said { IfOk result (λ found. (g : GroupValue) → IsLawfulGroup g → g.xid ≡ xid → length (group_body g) < 2 ^ 16
        → body.now ≡ group_body g → found ≡ Some (Group g)) }
{
    let Some(group) = group_of(alloc, xid, body)? else {
        return Ok(None);
    };
    Ok(Some(Message::Group(group)))
}

// The message of a type whose body this is.
fn content(alloc: Global, kind: u8, xid: u32, body: &[u8]) -> Result<Option<Message>, AllocError>
    ensures lawful { IfOk result (λ found. IfSome found IsLawfulContent) }
    ensures said { IfOk result (λ found. (m : Message) → IsLawfulContent m → kind ≡ message_kind m → xid ≡ message_xid m
        → length (message_body m) < 2 ^ 16 → body.now ≡ message_body m → found ≡ Some m) }
{
    if kind == FLOW_MOD {
        return flow_message(alloc, xid, body);
    }
    if kind == GROUP_MOD {
        return group_message(alloc, xid, body);
    }
    if kind == BARRIER_REQUEST {
        return Ok(Some(Message::Barrier { xid }));
    }
    Ok(None)
}

// The message that the bytes begin with, where they begin with the spelling of one. Where they don't, it
// may be any message or none.
fn candidate(alloc: Global, bytes: &[u8]) -> Result<Option<Message>, AllocError>
    ensures lawful { IfOk result (λ found. IfSome found IsLawfulContent) }
    ensures said { IfOk result (λ found. (m : Message) (more : List ℕ) → IsLawfulMessage m → bytes.now ≡ message_bytes m ++ more → found ≡ Some m) }
{
    if bytes.len() < 8 {
        return Ok(None);
    }
    let length = usize::from(u16::from_be_bytes([bytes[2], bytes[3]]));
    if length < 8 {
        return Ok(None);
    }
    if bytes.len() < length {
        return Ok(None);
    }
    let xid = u32_of(&bytes[4..8]);
    content(alloc, bytes[1], xid, &bytes[8..length])
}

// The length of the spelling of the message, where the bytes begin with it and a header can state it.
fn spelled_len(alloc: Global, found: &Message, bytes: &[u8]) -> Result<Option<usize>, AllocError>
    requires { IsLawfulContent found.now }
    ensures { IfOk result (λ found_length. MatchOption found_length
        (IsLawfulMessage found.now → StandsAt bytes.now 0 (message_bytes found.now) → ⊥)
        (λ n. IsLawfulMessage found.now × StandsAt bytes.now 0 (message_bytes found.now) × (n ≡ length (message_bytes found.now)))) }
{
    let spelled = spelling(alloc, found)?;
    if spelled.len() > LONGEST {
        return Ok(None);
    }
    if !bytes.starts_with(&spelled) {
        return Ok(None);
    }
    Ok(Some(spelled.len()))
}

// The message that is spelled at the front, and the length of its spelling.
fn message_in(alloc: Global, bytes: &[u8]) -> Result<Option<(Message, usize)>, AllocError>
    ensures { IfOk result (λ found. MatchOption found (HasNoMessageAt bytes.now 0)
        (λ x. IsLawfulMessage x.0 × StandsAt bytes.now 0 (message_bytes x.0) × (x.1 ≡ length (message_bytes x.0)))) }
{
    let Some(message) = candidate(alloc, bytes)? else {
        return Ok(None);
    };
    let Some(length) = spelled_len(alloc, &message, bytes)? else {
        return Ok(None);
    };
    Ok(Some((message, length)))
}

/// The message that is spelled at byte `at`, and the byte after it (OpenFlow 1.3.5, sections 7.1, 7.3.4
/// and 7.3.8). A message has one spelling, so what is read as a message is taken only if its spelling
/// is there. `BadMessage` comes exactly where no message is spelled at `at`.
pub fn read_message(
    alloc: Global,
    bytes: &[u8],
    at: usize,
) -> Result<(Message, usize), MessageFault>
    ensures ok { IfOk result (λ found. IsLawfulMessage found.0 × StandsAt bytes.now at (message_bytes found.0)
        × (found.1 ≡ at + length (message_bytes found.0))) }
    ensures within { IfOk result (λ found. found.1 ≤ length bytes.now) }
    ensures err { IfErr result (IsMessageFault bytes.now at) }
{
    if bytes.len() < at {
        return Err(MessageFault::BadMessage { at });
    }
    match message_in(alloc, &bytes[at..]) {
        Ok(Some(found)) => Ok((found.0, at + found.1)),
        Ok(None) => Err(MessageFault::BadMessage { at }),
        Err(_) => Err(MessageFault::Memory),
    }
}

/// Bytes begin with the spelling of one message at most: no spelling is the beginning of another's, and
/// a spelling tells its message.
pub fn no_message_begins_another()
    ensures { (m n : Message) (more others : List ℕ) → IsLawfulMessage m → IsLawfulMessage n
        → message_bytes m ++ more ≡ message_bytes n ++ others → m ≡ n }
{}
