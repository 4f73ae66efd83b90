ghost use Rattle.std.specs.Prelude.{◌≡◌, ◌++◌, true, false, All, IfOk, OnOk};
ghost use Rattle.std.specs.List.{flat_map};
ghost use Rattle.pq_model.specs.Lawful.{IsLawfulMessage};
ghost use Rattle.pq_model.specs.Spelling.{message_bytes};
ghost use Rattle.pq_speaker.specs.Division.{header_of, is_whole};
ghost use Rattle.pq_speaker.specs.Rules.{effect, greeted, has_bad_length, identified, replies_bytes, spoken};

use crate::header::{
    BARRIER_REPLY, ECHO_REPLY, ECHO_REQUEST, ERROR, FEATURES_REPLY, FEATURES_REQUEST, HELLO,
    Header, VERSION, header_of,
};
use crate::rules::{ends_with_barrier, has_bad_length, refused, write_with_header};
use crate::talk::{Reason, Talk};
use pq_flowmod::write_message;
use pq_model::Message;
use pq_oxm::u64_of;
use std::alloc::{AllocError, Global};
use std::marker::Model;

/// The switch that a speaker waits for, and what it installs there.
#[derive(Drop)]
pub struct Session {
    pub(crate) datapath: u64,
    pub(crate) messages: Vec<Message>,
}

impl Model for Session {
    ghost use Rattle.std.specs.Prelude.{All};
    ghost use Rattle.pq_model.specs.Lawful.{IsLawfulMessage};
    ghost use Rattle.pq_speaker.specs.Rules.{Session as SessionValue};

    ghost Value = { SessionValue };

    ghost view = { λ s. record { datapath = s.datapath; messages = s.messages.items } };

    ghost invariant = { λ s. All IsLawfulMessage s.messages.items };
}

impl Session {
    /// Appends what the speaker sends for a message of the switch, and tells how far the session is then.
    pub fn answer(
        &self,
        alloc: Global,
        talk: Talk,
        message: &[u8],
        sent: &mut Vec<u8>,
    ) -> Result<Talk, AllocError>
        requires { is_whole message.now ≡ true }
        ensures talk { IfOk result (λ t. t ≡ (effect self.now talk message.now).talk) }
        ensures sent { OnOk result (sent.new.items
            ≡ sent.old.items ++ replies_bytes self.now.messages (effect self.now talk message.now).replies) }
    {
        let header = header_of(message);
        if talk.has_failed() {
            return Ok(talk);
        }
        if has_bad_length(talk, header) {
            return Ok(Talk::Failed(Reason::BadLength {
                length: header.length,
            }));
        }
        if header.kind == HELLO {
            return self.greet(talk, header.version, sent);
        }
        if header.version != VERSION {
            return Ok(Talk::Failed(Reason::BadVersion {
                version: header.version,
            }));
        }
        self.speak(alloc, talk, message, sent)
    }

    // After a HELLO the switch is asked which one it is.
    fn greet(&self, talk: Talk, version: u8, sent: &mut Vec<u8>) -> Result<Talk, AllocError>
        ensures talk { IfOk result (λ t. t ≡ (greeted talk version).talk) }
        ensures sent { OnOk result (sent.new.items
            ≡ sent.old.items ++ replies_bytes self.now.messages (greeted talk version).replies) }
    {
        if !talk.is_greeting() {
            return Ok(talk);
        }
        if version < VERSION {
            return Ok(Talk::Failed(Reason::BadVersion { version }));
        }
        write_with_header(FEATURES_REQUEST, 0, &[], sent)?;
        Ok(Talk::Asking)
    }

    // A message of this version that is not a HELLO.
    fn speak(
        &self,
        alloc: Global,
        talk: Talk,
        message: &[u8],
        sent: &mut Vec<u8>,
    ) -> Result<Talk, AllocError>
        requires whole { is_whole message.now ≡ true }
        requires fitting { has_bad_length talk (header_of message.now) ≡ false }
        ensures talk { IfOk result (λ t. t ≡ (spoken self.now talk (header_of message.now) message.now).talk) }
        ensures sent { OnOk result (sent.new.items
            ≡ sent.old.items ++ replies_bytes self.now.messages (spoken self.now talk (header_of message.now) message.now).replies) }
    {
        let header = header_of(message);
        if header.kind == ECHO_REQUEST {
            write_with_header(ECHO_REPLY, header.xid, &message[8..], sent)?;
            return Ok(talk);
        }
        if header.kind == ERROR && talk.is_before_installed() {
            return Ok(refused(message));
        }
        if header.kind == FEATURES_REPLY && talk.is_asking() {
            return self.identify(alloc, u64_of(&message[8..16]), sent);
        }
        if header.kind == BARRIER_REPLY
            && talk.is_installing()
            && ends_with_barrier(header.xid, &self.messages)
        {
            return Ok(Talk::Installed);
        }
        Ok(talk)
    }

    // The switch that is waited for gets all messages.
    fn identify(&self, alloc: Global, datapath: u64, sent: &mut Vec<u8>) -> Result<Talk, AllocError>
        ensures talk { IfOk result (λ t. t ≡ (identified self.now datapath).talk) }
        ensures sent { OnOk result (sent.new.items
            ≡ sent.old.items ++ replies_bytes self.now.messages (identified self.now datapath).replies) }
    {
        if datapath != self.datapath {
            return Ok(Talk::Failed(Reason::OtherSwitch { datapath }));
        }
        write_messages(alloc, &self.messages, sent)?;
        Ok(Talk::Installing)
    }
}

// Appends the spellings of messages, one after another.
fn write_messages(alloc: Global, messages: &[Message], into: &mut Vec<u8>) -> Result<(), AllocError>
    requires { All IsLawfulMessage messages.now }
    ensures { OnOk result (into.new.items ≡ into.old.items ++ flat_map message_bytes messages.now) }
{
    for message in messages {
        write_message(alloc, message, into)?;
    }
    Ok(())
}
