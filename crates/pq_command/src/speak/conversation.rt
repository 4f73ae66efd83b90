//! What is said to a switch and heard from it, a piece at a time.
ghost use Rattle.std.specs.Prelude.{◌≡◌, ◌≤◌, ℕ, All, IfErr, IfOk, List, OnErr, OnOk, Option, false, length};
ghost use Rattle.std.specs.Io.KnownBytes.{Appends};
ghost use Rattle.pq_io.specs.Faults.{Rose};
ghost use Rattle.pq_io.specs.Pieces.{AppendsPart};
ghost use Rattle.pq_model.specs.Lawful.{IsLawfulMessage};
ghost use Rattle.pq_speaker.specs.Rules.{has_failed};
ghost use Rattle.pq_speaker.specs.Speaking.{EndsWithOwnBarrier, heard};
ghost use Rattle.pq_command.specs.Answers.{HasReadFaults, HasWriteFaults, OnRefusalInTurns, streams};
ghost use Rattle.pq_command.specs.Reading.{install_limit};
ghost use Rattle.pq_command.specs.Speaks.{IsSpeakAnswer, IsTurnEnd, IsUnderWay, end_outcome, said, sends, session_of, state_after, talk_after, unread_outcome};

use crate::outcome::Outcome;
use crate::reading::{INSTALL_LIMIT, PIECE, Unread, zeros};
use crate::speak::heading::read_opening;
use crate::speak::opening::{Opening, opening_of};
use pq_io::{Sink, Source};
use pq_speaker::{Message, Speaker, Talk};
use std::alloc::Global;

/// A session that goes on.
#[derive(Drop)]
pub(crate) struct Conversation {
    speaker: Speaker,
    /// How many bytes were read.
    read: usize,
}

/// The outcome of an input that wasn't read as far as its install.
fn outcome_of(unread: Unread) -> Outcome
    ensures { result ≡ unread_outcome unread }
{
    match unread {
        Unread::Failed => Outcome::ReadFault,
        Unread::TooLong => Outcome::TooLong,
        Unread::Memory => Outcome::Memory,
    }
}

/// How a session ends with its input.
fn end_of(speaker: &Speaker) -> Outcome
    ensures { result ≡ end_outcome speaker.now.talk }
{
    match speaker.talk() {
        Talk::Installed => Outcome::Done,
        talk => Outcome::Speaking { talk: *talk },
    }
}

/// Writes bytes, where there are any.
fn say<K: Sink>(bytes: &[u8], sink: &mut K) -> Result<(), Outcome>
    ensures whole { OnOk result (Appends (K.put sink.old) (K.put sink.new) bytes.now) }
    ensures part { OnErr result (AppendsPart (K.put sink.old) (K.put sink.new) bytes.now) }
    ensures err { IfErr result (λ outcome. outcome ≡ Outcome.WriteFault) }
    ensures kept { OnOk result (K.faults sink.new ≡ K.faults sink.old) }
    ensures rose { OnErr result (Rose (K.faults sink.old) (K.faults sink.new)) }
{
    if bytes.is_empty() {
        return Ok(());
    }
    match sink.write(bytes) {
        Ok(()) => Ok(()),
        Err(_) => Err(Outcome::WriteFault),
    }
}

/// Hears a piece and says what is to be said for it; the outcome where the session doesn't go on.
fn hear<K: Sink>(
    alloc: Global,
    speaker: &mut Speaker,
    piece: &[u8],
    sink: &mut K,
) -> Result<(), Outcome>
    ensures state { OnOk result (speaker.new ≡ (heard speaker.old piece.now).state) }
    ensures put { OnOk result (Appends (K.put sink.old) (K.put sink.new) (sends speaker.old piece.now)) }
    ensures going { OnOk result (has_failed speaker.new.talk ≡ false) }
    ensures err { IfErr result (λ outcome. IsTurnEnd (heard speaker.old piece.now).state.talk (sends speaker.old piece.now) outcome
        (K.put sink.old) (K.put sink.new)) }
    ensures kept { OnOk result (K.faults sink.new ≡ K.faults sink.old) }
    ensures faults { IfErr result (λ outcome. HasWriteFaults outcome (K.faults sink.old) (K.faults sink.new)) }
{
    let sent = match speaker.feed(alloc, piece) {
        Ok(sent) => sent,
        Err(_) => return Err(Outcome::Memory),
    };
    match say(&sent, sink) {
        Ok(()) => {}
        Err(outcome) => return Err(outcome),
    }
    match speaker.talk() {
        Talk::Failed(reason) => Err(Outcome::Speaking {
            talk: Talk::Failed(*reason),
        }),
        _ => Ok(()),
    }
}

/// Opens a session and hears the first bytes of the switch; the outcome where the session doesn't go on.
fn greet<K: Sink>(
    alloc: Global,
    datapath: u64,
    messages: Vec<Message>,
    first: &[u8],
    sink: &mut K,
) -> Result<Speaker, Outcome>
    requires lawful { All IsLawfulMessage messages.items }
    requires ended { EndsWithOwnBarrier messages.items }
    ensures state { IfOk result (λ speaker. speaker ≡ state_after (session_of datapath messages.items) first.now) }
    ensures put { OnOk result (Appends (K.put sink.old) (K.put sink.new) (said (session_of datapath messages.items) first.now)) }
    ensures going { IfOk result (λ speaker. has_failed speaker.talk ≡ false) }
    ensures err { IfErr result (λ outcome. IsTurnEnd (talk_after (session_of datapath messages.items) first.now)
        (said (session_of datapath messages.items) first.now) outcome (K.put sink.old) (K.put sink.new)) }
    ensures kept { OnOk result (K.faults sink.new ≡ K.faults sink.old) }
    ensures faults { IfErr result (λ outcome. HasWriteFaults outcome (K.faults sink.old) (K.faults sink.new)) }
{
    let (mut speaker, hello) = match Speaker::open(alloc, datapath, messages) {
        Ok(opened) => opened,
        Err(_) => return Err(Outcome::Memory),
    };
    match say(&hello, sink) {
        Ok(()) => {}
        Err(outcome) => return Err(outcome),
    }
    match hear(alloc, &mut speaker, first, sink) {
        Ok(()) => Ok(speaker),
        Err(outcome) => Err(outcome),
    }
}

impl Conversation {
    /// Reads what is to be installed, and says the first to the switch; the outcome where the session doesn't go on.
    pub(crate) fn start<S: Source, K: Sink>(
        alloc: Global,
        datapath: u64,
        source: &mut S,
        sink: &mut K,
    ) -> Result<Conversation, Outcome>
        ensures under_way { IfOk result (λ c. (text : List ℕ)
            × IsUnderWay datapath (streams (S.left source.old) (S.left source.new) (K.put sink.old) (K.put sink.new)) c.speaker text
            × (length text ≡ c.read) × (c.read ≤ install_limit)) }
        ensures err { IfErr result (λ outcome. IsSpeakAnswer datapath outcome
            (streams (S.left source.old) (S.left source.new) (K.put sink.old) (K.put sink.new))) }
        ensures read_kept { OnOk result (S.faults source.new ≡ S.faults source.old) }
        ensures read_faults { IfErr result (λ outcome. HasReadFaults outcome (S.faults source.old) (S.faults source.new)) }
        ensures write_kept { OnOk result (K.faults sink.new ≡ K.faults sink.old) }
        ensures write_faults { IfErr result (λ outcome. HasWriteFaults outcome (K.faults sink.old) (K.faults sink.new)) }
        ensures refusal { IfErr result (λ outcome. OnRefusalInTurns outcome (sink.new ≡ sink.old)) }
    {
        let text = match read_opening(alloc, source) {
            Ok(text) => text,
            Err(unread) => return Err(outcome_of(unread)),
        };
        let Opening { messages, at } = match opening_of(alloc, datapath, &text) {
            Ok(opening) => opening,
            Err(outcome) => return Err(outcome),
        };
        match greet(alloc, datapath, messages, &text[at..], sink) {
            Ok(speaker) => Ok(Conversation {
                speaker,
                read: text.len(),
            }),
            Err(outcome) => Err(outcome),
        }
    }

    /// Hears the switch and answers it, until the input ends or the session fails.
    pub(crate) fn go_on<S: Source, K: Sink>(
        self,
        alloc: Global,
        source: &mut S,
        sink: &mut K,
    ) -> Outcome
        requires { self.read ≤ install_limit }
        ensures answer { (datapath : ℕ) (left before : Option (List ℕ)) (text : List ℕ)
            → IsUnderWay datapath (streams left (S.left source.old) before (K.put sink.old)) self.speaker text → length text ≡ self.read
            → IsSpeakAnswer datapath result (streams left (S.left source.new) before (K.put sink.new)) }
        ensures read_faults { HasReadFaults result (S.faults source.old) (S.faults source.new) }
        ensures write_faults { HasWriteFaults result (K.faults sink.old) (K.faults sink.new) }
        ensures in_turns { OnRefusalInTurns result ⊥ }
    {
        let Ok(mut piece) = zeros(alloc, PIECE) else {
            return Outcome::Memory;
        };
        let Conversation {
            mut speaker,
            mut read,
        } = self;
        for turn in 0..INSTALL_LIMIT + 2 {
            let taken = match source.read(&mut piece) {
                Ok(taken) => taken,
                Err(_) => return Outcome::ReadFault,
            };
            if taken == 0 {
                return end_of(&speaker);
            }
            read += taken;
            if read > INSTALL_LIMIT {
                return Outcome::TooLong;
            }
            match hear(alloc, &mut speaker, &piece[..taken], sink) {
                Ok(()) => {}
                Err(outcome) => return outcome,
            }
        }
        unreachable!()
    }
}
