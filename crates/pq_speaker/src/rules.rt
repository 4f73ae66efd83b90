ghost use Rattle.std.specs.Prelude.{◌≡◌, ◌≤◌, ◌++◌, ◌+◌, true, length, drop, OnOk, IfOk};
ghost use Rattle.pq_model.specs.Lawful.{IsLawfulMessage};
ghost use Rattle.pq_model.specs.Spelling.{with_header};
ghost use Rattle.pq_speaker.specs.Rules.{ends_with_barrier, has_bad_length, refused};

use crate::header::{ERROR, FEATURES_REPLY, Header, VERSION};
use crate::talk::{Reason, Talk};
use pq_model::Message;
use pq_oxm::{u16_of, write_length};
use std::alloc::AllocError;

const ERROR_SIZE: u16 = 12;

const FEATURES_SIZE: u16 = 32;

/// Whether a header states a length that no message of its type has at this point of a session.
pub fn has_bad_length(talk: Talk, header: Header) -> bool
    ensures { result ≡ has_bad_length talk header }
{
    header.length < 8
        || header.kind == ERROR && header.length < ERROR_SIZE
        || header.kind == FEATURES_REPLY && talk.is_asking() && header.length != FEATURES_SIZE
}

/// The failure that an ERROR makes.
pub fn refused(message: &[u8]) -> Talk
    requires { 12 ≤ length message.now }
    ensures { result ≡ (refused message.now).talk }
{
    Talk::Failed(Reason::SwitchError {
        kind: u16_of(&message[8..10]),
        code: u16_of(&message[10..12]),
    })
}

/// Whether the last message is the barrier with this xid.
pub fn ends_with_barrier(xid: u32, messages: &[Message]) -> bool
    ensures { result ≡ ends_with_barrier xid messages.now }
{
    match messages.last() {
        Some(Message::Barrier { xid: last }) => *last == xid,
        _ => false,
    }
}

/// Appends a message with its header (OpenFlow 1.3.5, section 7.1).
#[tactic(auto, unfolding(pq_model::specs::Spelling::with_header))]
pub fn write_with_header(
    kind: u8,
    xid: u32,
    body: &[u8],
    into: &mut Vec<u8>,
) -> Result<(), AllocError>
    requires { 8 + length body.now ≤ 65535 }
    ensures { OnOk result (into.new.items ≡ into.old.items ++ with_header kind xid body.now) }
{
    into.extend_from_slice(&[VERSION, kind])?;
    write_length(8 + body.len(), into)?;
    into.extend_from_slice(&xid.to_be_bytes())?;
    into.extend_from_slice(body)
}
