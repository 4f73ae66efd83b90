//! The course of a session.
ghost use Rattle.std.specs.Prelude.{◌≡◌, ◌≤◌, ◌<◌, ℕ, List, Option, true, length, IfErr, IfOk, OnOk};
ghost use Rattle.std.specs.Io.KnownBytes.{IsAtEnd};
ghost use Rattle.pq_pieces.specs.Reading.{chunk_size};
ghost use Rattle.pq_command.specs.Answers.{HasReadFaults, HasWriteFaults, OnRefusalInSession, streams};
ghost use Rattle.pq_command.specs.Sessions.{IsGoingOn, IsSessionAnswer, current_of, pieces_limit, unread_outcome};

use crate::outcome::Outcome;
use crate::reading::DOCUMENT_LIMIT;
use crate::session::frames::{put, put_install};
use crate::session::opening::engine_of;
use crate::session::steps::step;
use pq_engine::Engine;
use pq_io::{Sink, Source};
use pq_pieces::{Pieces, Unread};
use std::alloc::Global;

/// The most pieces after the first one.
const OTHERS: u32 = 9_999;

/// A session that has written the frames of all pieces so far.
#[derive(Drop)]
pub(crate) struct Course {
    pieces: Pieces,
    engine: Engine,
    /// Whether no other piece follows.
    is_last: bool,
}

/// The outcome of what keeps a piece from being read.
fn outcome_of(unread: Unread) -> Outcome
    ensures { result ≡ unread_outcome unread }
{
    match unread {
        Unread::Failed => Outcome::ReadFault,
        Unread::TooLong => Outcome::TooLong,
        Unread::Memory => Outcome::Memory,
    }
}

impl Course {
    /// Reads the first piece and writes the install of its document; or the outcome where there is none.
    pub(crate) fn start<S: Source, K: Sink>(
        alloc: Global,
        source: &mut S,
        sink: &mut K,
    ) -> Result<Course, Outcome>
        ensures going_on { IfOk result (λ c. IsGoingOn
            (streams (S.left source.old) (S.left source.new) (K.put sink.old) (K.put sink.new)) c.pieces.pending c.is_last
            (current_of c.engine) 0) }
        ensures ended { IfOk result (λ c. c.pieces.is_ended ≡ true → IsAtEnd (S.left source.new)) }
        ensures few { IfOk result (λ c. length c.pieces.pending ≤ chunk_size) }
        ensures err { IfErr result (λ outcome. IsSessionAnswer outcome (streams (S.left source.old) (S.left source.new) (K.put sink.old) (K.put sink.new))) }
        ensures read_kept { OnOk result (S.faults source.new ≡ S.faults source.old) }
        ensures read_faults { IfErr result (λ outcome. HasReadFaults outcome (S.faults source.old) (S.faults source.new)) }
        ensures write_kept { OnOk result (K.faults sink.new ≡ K.faults sink.old) }
        ensures write_faults { IfErr result (λ outcome. HasWriteFaults outcome (K.faults sink.old) (K.faults sink.new)) }
        ensures refusal { IfErr result (λ outcome. OnRefusalInSession outcome (sink.new ≡ sink.old)) }
    {
        let Ok(mut pieces) = Pieces::new(alloc) else {
            return Err(Outcome::Memory);
        };
        let piece = match pieces.next_piece(alloc, source, DOCUMENT_LIMIT) {
            Ok(piece) => piece,
            Err(unread) => return Err(outcome_of(unread)),
        };
        let engine = match engine_of(alloc, &piece.text) {
            Ok(engine) => engine,
            Err(outcome) => return Err(outcome),
        };
        match put_install(alloc, engine.install(), sink) {
            Ok(()) => {}
            Err(outcome) => return Err(outcome),
        }
        Ok(Course {
            pieces,
            engine,
            is_last: piece.is_last,
        })
    }

    /// Writes the last install.
    fn finish<K: Sink>(&self, alloc: Global, sink: &mut K) -> Outcome
        ensures answer { (left rest before : Option (List ℕ)) (n : ℕ)
            → IsGoingOn (streams left rest before (K.put sink.old)) self.now.pieces.pending true (current_of self.now.engine) n
            → n < pieces_limit → IsSessionAnswer result (streams left rest before (K.put sink.new)) }
        ensures read_faults { (faults : ℕ) → HasReadFaults result faults faults }
        ensures write_faults { HasWriteFaults result (K.faults sink.old) (K.faults sink.new) }
        ensures in_turns { OnRefusalInSession result ⊥ }
    {
        match put_install(alloc, self.engine.install(), sink) {
            Ok(()) => Outcome::Done,
            Err(outcome) => outcome,
        }
    }

    /// Reads the other pieces and writes their frames, and at the end the last install.
    pub(crate) fn go_on<S: Source, K: Sink>(
        &mut self,
        alloc: Global,
        source: &mut S,
        sink: &mut K,
    ) -> Outcome
        requires ended { self.old.pieces.is_ended ≡ true → IsAtEnd (S.left source.old) }
        requires few { length self.old.pieces.pending ≤ chunk_size }
        ensures answer { (left before : Option (List ℕ))
            → IsGoingOn (streams left (S.left source.old) before (K.put sink.old)) self.old.pieces.pending self.old.is_last
            (current_of self.old.engine) 0 → IsSessionAnswer result (streams left (S.left source.new) before (K.put sink.new)) }
        ensures read_faults { HasReadFaults result (S.faults source.old) (S.faults source.new) }
        ensures write_faults { HasWriteFaults result (K.faults sink.old) (K.faults sink.new) }
        ensures in_turns { OnRefusalInSession result ⊥ }
    {
        for turn in 0..OTHERS {
            if self.is_last {
                return self.finish(alloc, sink);
            }
            let piece = match self.pieces.next_piece(alloc, source, DOCUMENT_LIMIT) {
                Ok(piece) => piece,
                Err(unread) => return outcome_of(unread),
            };
            let Ok(frame) = step(alloc, &mut self.engine, &piece.text) else {
                return Outcome::Memory;
            };
            match put(&frame, sink) {
                Ok(()) => self.is_last = piece.is_last,
                Err(outcome) => return outcome,
            }
        }
        if self.is_last {
            return self.finish(alloc, sink);
        }
        Outcome::SessionFull
    }
}
