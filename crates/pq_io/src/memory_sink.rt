ghost use Rattle.std.specs.Prelude.{◌≡◌, ◌≤◌, ◌↔◌, [], length, vec_capacity, Some, IsTrue, IsErr, IfOk, OnOk, OnErr};
ghost use Rattle.std.specs.Io.KnownBytes.{Appends};
ghost use Rattle.pq_io.specs.Faults.{HasCause};
ghost use Rattle.pq_io.specs.Pieces.{AppendsPart};
ghost use Rattle.pq_io.specs.SinkState.{SinkState, MustFail, after_write, after_failed_write};

use crate::faults::{Failed, one_more};
use crate::sink::Sink;
use std::alloc::{AllocError, Global};
use std::marker::Model;

/// A sink of bytes in memory, with a fixed room, which fails at the calls that its maker chose.
///
/// Contracts see the bytes that were put, the room, what a failing write keeps, the numbers of the
/// calls that fail, and how many calls and faults there were, each count up to the largest `u64`.
#[derive(Debug, Drop)]
pub struct MemorySink {
    bytes: Vec<u8>,
    room: usize,
    kept: usize,
    failing: Vec<u64>,
    calls: u64,
    faults: u64,
}

impl Model for MemorySink {
    ghost Value = { SinkState };

    ghost view = { λ s. record {
      put = s.bytes.items;
      room = s.room;
      kept = s.kept;
      failing = s.failing.items;
      calls = s.calls;
      faults = s.faults;
    } };

    ghost invariant = { λ s. (length s.bytes.items ≤ s.room) × (s.room ≤ vec_capacity s.bytes) };
}

impl MemorySink {
    /// An empty sink for `room` bytes. They are allocated here, and no write allocates: where there
    /// is no memory for them, the answer is `AllocError`.
    ///
    /// The writes whose numbers, counted from 1, are in `failing` fail, as does one whose piece is
    /// longer than what is left of the room. A failing write adds the first `kept` bytes of its
    /// piece, or as many as the piece has or the room holds where that is fewer.
    pub fn new(
        alloc: Global,
        failing: Vec<u64>,
        kept: usize,
        room: usize,
    ) -> Result<MemorySink, AllocError>
        ensures { IfOk result (λ s. s ≡ record {
          put = [];
          room = room;
          kept = kept;
          failing = failing.items;
          calls = 0;
          faults = 0;
        }) }
    {
        let bytes = Vec::with_capacity(alloc, room)?;
        Ok(MemorySink {
            bytes,
            room,
            kept,
            failing,
            calls: 0,
            faults: 0,
        })
    }

    /// The bytes that were put so far.
    pub fn put(&self) -> &[u8]
        ensures { result.now ≡ self.now.put }
    {
        &self.bytes
    }

    // Whether the next write fails.
    fn must_fail(&self, piece: &[u8]) -> bool
        ensures { IsTrue result ↔ MustFail self.now piece.now }
    {
        let is_chosen = self.failing.contains(&one_more(self.calls));
        is_chosen || self.room - self.bytes.len() < piece.len()
    }
}

impl Sink for MemorySink {
    ghost put = { λ s. Some s.put };

    ghost faults = { λ s. s.faults };

    fn write(&mut self, piece: &[u8]) -> Result<(), Failed>
        ensures whole { OnOk result (Appends (Some self.old.put) (Some self.new.put) piece.now) }
        ensures part { OnErr result
            (AppendsPart (Some self.old.put) (Some self.new.put) piece.now) }
        ensures cause { HasCause self.old.faults self.new.faults result }

        // Exactly which writes fail, and what each leaves.
        ensures fails { IsErr result ↔ MustFail self.old piece.now }
        ensures ok { OnOk result (self.new ≡ after_write self.old piece.now) }
        ensures err { OnErr result (self.new ≡ after_failed_write self.old piece.now) }
    {
        let must_fail = self.must_fail(piece);
        self.calls = one_more(self.calls);
        if must_fail {
            self.faults = one_more(self.faults);
            let room_left = self.room - self.bytes.len();
            let count = self.kept.min(room_left).min(piece.len());
            self.bytes.extend_from_slice(&piece[..count]).unwrap();
            return Err(Failed);
        }
        self.bytes.extend_from_slice(piece).unwrap();
        Ok(())
    }
}
