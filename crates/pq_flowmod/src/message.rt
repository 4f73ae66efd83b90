ghost use Rattle.std.specs.Prelude.{◌≡◌, ◌++◌, IfOk, OnOk, OnErr};
ghost use Rattle.pq_model.specs.Lawful.{IsLawfulContent, IsLawfulMessage};
ghost use Rattle.pq_model.specs.Spelling.{message_bytes, with_header};

use crate::flow::flow_body;
use crate::group::group_body;
use pq_model::Message;
use pq_oxm::write_length;
use std::alloc::{AllocError, Global};

// The version of OpenFlow 1.3 (OpenFlow 1.3.5, section 7.1).
const VERSION: u8 = 0x04;

/// The room for the body of a message to begin with, in bytes: most messages of the compiler need no more.
pub const ROOM: usize = 128;

/// The type of a message that changes flow entries.
pub const FLOW_MOD: u8 = 14;

/// The type of a message that changes a group.
pub const GROUP_MOD: u8 = 15;

/// The type of a message that keeps what comes before it from what comes after.
pub const BARRIER_REQUEST: u8 = 20;

// A message with its header: version, type, length of the whole message, and transaction id.
#[tactic(auto, unfolding(pq_model::specs::Spelling::with_header))]
fn with_header(alloc: Global, kind: u8, xid: u32, body: &[u8]) -> Result<Vec<u8>, AllocError>
    ensures { IfOk result (λ bytes. bytes.items ≡ with_header kind xid body.now) }
{
    let mut bytes = Vec::with_capacity(alloc, 8 + body.len())?;
    bytes.extend_from_slice(&[VERSION, kind])?;
    write_length(8 + body.len(), &mut bytes)?;
    bytes.extend_from_slice(&xid.to_be_bytes())?;
    bytes.extend_from_slice(body)?;
    Ok(bytes)
}

/// The spelling of a message in a vector of its own. Of a message that is too long for its header, the
/// header states the lower two bytes of the length.
#[tactic(auto, unfolding(pq_model::specs::Spelling::message_bytes))]
pub fn spelling(alloc: Global, value: &Message) -> Result<Vec<u8>, AllocError>
    requires { IsLawfulContent value.now }
    ensures { IfOk result (λ bytes. bytes.items ≡ message_bytes value.now) }
{
    match value {
        Message::Flow(flow) => {
            let body = flow_body(alloc, flow)?;
            with_header(alloc, FLOW_MOD, flow.xid, &body)
        }
        Message::Group(group) => {
            let body = group_body(alloc, group)?;
            with_header(alloc, GROUP_MOD, group.xid, &body)
        }
        Message::Barrier { xid } => with_header(alloc, BARRIER_REQUEST, *xid, &[]),
    }
}

/// Appends the one spelling of a message (OpenFlow 1.3.5, sections 7.1, 7.3.4 and 7.3.8). The message
/// keeps the rules of its sort, and is shorter than 65,536 bytes. Where there is no memory for it
/// `into` is as before.
pub fn write_message(alloc: Global, value: &Message, into: &mut Vec<u8>) -> Result<(), AllocError>
    requires { IsLawfulMessage value.now }
    ensures ok { OnOk result (into.new.items ≡ into.old.items ++ message_bytes value.now) }
    ensures err { OnErr result (into.new.items ≡ into.old.items) }
{
    let spelling = spelling(alloc, value)?;
    into.extend_from_slice(&spelling)
}
