ghost use Rattle.std.specs.Prelude.{◌≡◌, MatchBool};
ghost use Rattle.std.specs.List.{list_any};
ghost use Rattle.pq_speaker.specs.Speaking.{EndsWithOwnBarrier, has_xid, xid_of};

use pq_model::Message;

/// Whether the last message is a barrier whose xid no other message has, as `Speaker::open` asks.
pub fn ends_with_own_barrier(messages: &[Message]) -> bool
    ensures { MatchBool result (EndsWithOwnBarrier messages.now) (EndsWithOwnBarrier messages.now → ⊥) }
{
    match messages {
        [front @ .., Message::Barrier { xid }] => !have_xid(*xid, front),
        _ => false,
    }
}

// Whether a message has this xid.
fn have_xid(xid: u32, messages: &[Message]) -> bool
    ensures { result ≡ list_any (has_xid xid) messages.now }
{
    messages.iter().any(|message| xid_of(message) == xid)
}

fn xid_of(message: &Message) -> u32
    ensures { result ≡ xid_of message.now }
{
    match message {
        Message::Flow(flow) => flow.xid,
        Message::Group(group) => group.xid,
        Message::Barrier { xid } => *xid,
    }
}
