ghost use Rattle.std.specs.Prelude.{◌≡◌, ◌≤◌, [], length, drop, IfOk};
ghost use Rattle.pq_speaker.specs.Division.{divided};
ghost use Rattle.pq_speaker.specs.Hearing.{passed};
ghost use Rattle.pq_speaker.specs.Rules.{replies_bytes};
ghost use Rattle.pq_speaker.specs.Speaking.{foreseen, heard_of};

use crate::division::message_size;
use crate::header::{HEADER_SIZE, header_of};
use crate::rules::has_bad_length;
use crate::session::Session;
use crate::talk::{Reason, Talk};
use std::alloc::{AllocError, Global};

/// What the speaker makes of bytes.
#[derive(Drop)]
pub struct Progress {
    pub talk: Talk,
    /// How many of the bytes don't wait any more.
    pub used: usize,
    /// What is sent.
    pub sent: Vec<u8>,
}

/// How far the session is where these bytes are not whole message yet: a bad length counts as soon as
/// the header is there.
fn foreseen(talk: Talk, rest: &[u8]) -> Talk
    ensures { result ≡ foreseen talk rest.now }
{
    if talk.has_failed() {
        return talk;
    }
    if rest.len() < HEADER_SIZE {
        return talk;
    }
    let header = header_of(rest);
    if has_bad_length(talk, header) {
        return Talk::Failed(Reason::BadLength {
            length: header.length,
        });
    }
    talk
}

impl Session {
    /// What the speaker makes of bytes, of which the first ones may have waited.
    pub fn hear(&self, alloc: Global, talk: Talk, bytes: &[u8]) -> Result<Progress, AllocError>
        ensures used { IfOk result (λ p. p.used ≤ length bytes.now) }
        ensures state { IfOk result (λ p. (heard_of self.now talk (divided [] bytes.now)).state
            ≡ record { session = self.now; talk = p.talk; waiting = drop p.used bytes.now }) }
        ensures sent { IfOk result (λ p. p.sent.items
            ≡ replies_bytes self.now.messages (heard_of self.now talk (divided [] bytes.now)).replies) }
    {
        let mut progress = self.hear_messages(alloc, talk, bytes)?;
        progress.talk = foreseen(progress.talk, &bytes[progress.used..]);
        if progress.talk.has_failed() {
            progress.used = bytes.len();
        }
        Ok(progress)
    }

    // The whole messages in turn.
    fn hear_messages(&self, alloc: Global, talk: Talk, bytes: &[u8]) -> Result<Progress, AllocError>
        ensures used { IfOk result (λ p. p.used ≤ length bytes.now) }
        ensures passed { IfOk result (λ p. passed self.now [] talk bytes.now
            ≡ record { talk = p.talk; rest = drop p.used bytes.now; sent = p.sent.items }) }
    {
        let mut talk = talk;
        let mut used = 0;
        let mut sent = Vec::new(alloc);
        while let Some(size) = message_size(&bytes[used..]) {
            talk = self.answer(alloc, talk, &bytes[used..used + size], &mut sent)?;
            used += size;
        }
        Ok(Progress { talk, used, sent })
    }
}
