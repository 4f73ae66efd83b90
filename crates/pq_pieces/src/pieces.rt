//! Reading pieces.
ghost use Rattle.std.specs.Prelude.{◌≡◌, ◌^◌, ◌<◌, ◌≤◌, ◌++◌, [], ℕ, List, false, length, true, vec_len, IfErr, IfOk, OnErr, OnOk};
ghost use Rattle.std.specs.Io.KnownBytes.{Consumes, IsAtEnd};
ghost use Rattle.pq_io.specs.Faults.{Rose};
ghost use Rattle.pq_pieces.specs.Lines.{going};
ghost use Rattle.pq_pieces.specs.Reading.{HasReadCause, IsFilled, IsNext, IsUnread, Looks, Reads, chunk_size};
ghost use Rattle.pq_pieces.specs.Scans.{IsStopped};

use crate::line::Line;
use crate::piece::{Piece, finished};
use crate::scan::{Found, scan};
use crate::unread::Unread;
use pq_io::{Failed, Source};
use std::alloc::{AllocError, Global};
use std::marker::Model;

/// How many bytes are asked for at once.
const CHUNK: usize = 16_384;

/// The pieces of an input, as far as it was read.
#[derive(Drop)]
pub struct Pieces {
    // The bytes that were read last; those from `from` to `to` belong to no piece yet.
    chunk: Vec<u8>,
    from: usize,
    to: usize,
    // Whether the input has ended.
    is_ended: bool,
}

impl Model for Pieces {
    ghost use Rattle.std.specs.Prelude.{◌≡◌, ◌≤◌, ◌-◌, take, drop, length};
    ghost use Rattle.pq_pieces.specs.Reading.{Reading, chunk_size};

    ghost Value = { Reading };

    ghost view = { λ p. record { pending = take (p.to - p.from) (drop p.from p.chunk.items); is_ended = p.is_ended } };

    ghost invariant = { λ p. (length p.chunk.items ≡ chunk_size) × (p.from ≤ p.to) × (p.to ≤ chunk_size) };
}

fn zeros(alloc: Global, len: usize) -> Result<Vec<u8>, AllocError>
    ensures { IfOk result (λ bytes. vec_len bytes ≡ len) }
{
    vec![in alloc; 0u8; len]
}

impl Pieces {
    /// The pieces of an input of which nothing was read.
    pub fn new(alloc: Global) -> Result<Pieces, AllocError>
        ensures pending { IfOk result (λ pieces. pieces.pending ≡ []) }
        ensures going { IfOk result (λ pieces. pieces.is_ended ≡ false) }
    {
        let chunk = zeros(alloc, CHUNK)?;
        Ok(Pieces {
            chunk,
            from: 0,
            to: 0,
            is_ended: false,
        })
    }

    /// Appends what is pending to a piece, up to the next line that parts two pieces. `None` says that the piece has ended.
    fn look(
        &mut self,
        piece: &mut Vec<u8>,
        line: Line,
        limit: usize,
    ) -> Result<Option<Line>, Unread>
        requires short { length piece.old.items ≤ limit }
        ensures looks { IfOk result (λ r. Looks line piece.old.items self.old self.new r piece.new.items) }
        ensures short { OnOk result (length piece.new.items ≤ limit) }
        ensures stopped { IfErr result (λ unread. (rest : List ℕ) → IsStopped unread limit (going line piece.old.items (self.old.pending ++ rest))) }
        ensures same { self.new.is_ended ≡ self.old.is_ended }
        ensures few { length self.new.pending ≤ chunk_size }
    {
        match scan(piece, line, &self.chunk[self.from..self.to], limit) {
            Ok(Found::Parted { used }) => {
                self.from += used;
                Ok(None)
            }
            Ok(Found::Going { line }) => {
                self.from = self.to;
                Ok(Some(line))
            }
            Err(unread) => Err(unread),
        }
    }

    /// Reads more bytes where nothing is pending, if the input has not ended.
    fn fill<S: Source>(&mut self, source: &mut S) -> Result<(), Failed>
        requires pending { self.old.pending ≡ [] }
        requires ended { self.old.is_ended ≡ true → IsAtEnd (S.left source.old) }
        ensures filled { OnOk result (IsFilled self.new) }
        ensures bytes { OnOk result (Consumes (S.left source.old) (S.left source.new) self.new.pending) }
        ensures failed { OnErr result (Consumes (S.left source.old) (S.left source.new) []) }
        ensures ended { OnOk result (self.new.is_ended ≡ true → IsAtEnd (S.left source.new)) }
        ensures kept { OnOk result (S.faults source.new ≡ S.faults source.old) }
        ensures cause { OnErr result (Rose (S.faults source.old) (S.faults source.new)) }
    {
        if self.is_ended {
            return Ok(());
        }
        let taken = source.read(&mut self.chunk)?;
        self.from = 0;
        self.to = taken;
        self.is_ended = taken == 0;
        Ok(())
    }

    /// Reads the next piece of a source. The input has not given its last piece yet.
    ///
    /// Nothing is read where the piece's end is pending already. A refusal leaves the pieces in no state of use.
    pub fn next_piece<S: Source>(
        &mut self,
        alloc: Global,
        source: &mut S,
        limit: usize,
    ) -> Result<Piece, Unread>
        requires limit { limit < 2 ^ 32 }
        requires ended { self.old.is_ended ≡ true → IsAtEnd (S.left source.old) }
        ensures next { IfOk result (λ piece. Reads (S.left source.old) (S.left source.new)
            (λ read. IsNext (self.old.pending ++ read) (S.left source.new) self.new.pending piece)) }
        ensures short { IfOk result (λ piece. length piece.text.items ≤ limit) }
        ensures unread { IfErr result (λ unread. Reads (S.left source.old) (S.left source.new)
            (λ read. IsUnread unread limit (self.old.pending ++ read) (S.left source.new))) }
        ensures ended { OnOk result (self.new.is_ended ≡ true → IsAtEnd (S.left source.new)) }
        ensures few { OnOk result (length self.new.pending ≤ chunk_size) }
        ensures cause { HasReadCause result (S.faults source.old) (S.faults source.new) }
    {
        let mut text = Vec::new(alloc);
        let mut line = Line::Start;
        for turn in 0..limit + 4 {
            match self.look(&mut text, line, limit) {
                Ok(Some(next)) => line = next,
                Ok(None) => {
                    return Ok(Piece {
                        text,
                        is_last: false,
                    });
                }
                Err(unread) => return Err(unread),
            }
            match self.fill(source) {
                Ok(()) => {}
                Err(_) => return Err(Unread::Failed),
            }
            if self.is_ended {
                return finished(text, line, limit);
            }
        }
        unreachable!()
    }
}
