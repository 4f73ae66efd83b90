ghost use Rattle.std.specs.Prelude.{◌≡◌, ◌≤◌, All, length, drop, IfOk, OnErr, OnOk};
ghost use Rattle.pq_model.specs.Lawful.{IsLawfulMessage};
ghost use Rattle.pq_speaker.specs.Rules.{replies_bytes};
ghost use Rattle.pq_speaker.specs.Speaking.{EndsWithOwnBarrier, heard, hello_bytes, opened};

use crate::header::HELLO;
use crate::rules::write_with_header;
use crate::session::Session;
use crate::talk::Talk;
use pq_model::Message;
use std::alloc::{AllocError, Global};
use std::marker::Model;

/// One end of a control connection, over any division of the switch's bytes.
#[derive(Drop)]
pub struct Speaker {
    session: Session,
    talk: Talk,
    // The bytes that were heard and are not whole message.
    waiting: Vec<u8>,
}

impl Model for Speaker {
    ghost use Rattle.pq_speaker.specs.Speaking.{IsState, State};

    ghost Value = { State };

    ghost view = { λ s. record { session = s.session; talk = s.talk; waiting = s.waiting.items } };

    ghost invariant = { λ s. IsState (record { session = s.session; talk = s.talk; waiting = s.waiting.items }) };
}

impl Speaker {
    /// A speaker that waits for the switch with this datapath number and installs these messages there, and
    /// its HELLO, which is sent first (OpenFlow 1.3.5, section 6.3.1). The messages are lawful, and the last
    /// is a barrier whose xid no other has. It fails only where memory runs out.
    pub fn open(
        alloc: Global,
        datapath: u64,
        messages: Vec<Message>,
    ) -> Result<(Speaker, Vec<u8>), AllocError>
        requires lawful { All IsLawfulMessage messages.items }
        requires ended { EndsWithOwnBarrier messages.items }
        ensures speaker { IfOk result (λ r. r.0 ≡ opened (record { datapath = datapath; messages = messages.items })) }
        ensures hello { IfOk result (λ r. r.1.items ≡ hello_bytes) }
    {
        let mut hello = Vec::new(alloc);
        write_with_header(HELLO, 0, &[], &mut hello)?;
        let session = Session { datapath, messages };
        let speaker = Speaker {
            session,
            talk: Talk::Greeting,
            waiting: Vec::new(alloc),
        };
        Ok((speaker, hello))
    }

    /// Hears more bytes of the switch, and gives what is sent for them. A refusal, because memory runs out,
    /// leaves the speaker as it was. The time is linear in the bytes heard and sent.
    pub fn feed(&mut self, alloc: Global, piece: &[u8]) -> Result<Vec<u8>, AllocError>
        ensures state { OnOk result (self.new ≡ (heard self.old piece.now).state) }
        ensures sent { IfOk result (λ sent. sent.items
            ≡ replies_bytes self.old.session.messages (heard self.old piece.now).replies) }
        ensures err { OnErr result (self.new ≡ self.old) }
    {
        if self.talk.has_failed() {
            return Ok(Vec::new(alloc));
        }
        let before = self.waiting.len();
        self.waiting.extend_from_slice(piece)?;
        match self.session.hear(alloc, self.talk, &self.waiting) {
            Ok(progress) => {
                self.talk = progress.talk;
                forget(&mut self.waiting, progress.used);
                Ok(progress.sent)
            }
            Err(refusal) => {
                self.waiting.truncate(before);
                Err(refusal)
            }
        }
    }

    /// How far the session is. It takes no memory.
    pub fn talk(&self) -> &Talk
        ensures { result.now ≡ self.now.talk }
    {
        &self.talk
    }
}

// Takes bytes away at the front. Where there are none to take, no byte is moved.
fn forget(waiting: &mut Vec<u8>, count: usize)
    requires { count ≤ length waiting.old.items }
    ensures { waiting.new.items ≡ drop count waiting.old.items }
{
    if count > 0 {
        waiting.drain(..count);
    }
}
