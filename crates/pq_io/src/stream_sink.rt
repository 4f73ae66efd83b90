ghost use Rattle.std.specs.Prelude.{◌≡◌, None, OnOk, OnErr};
ghost use Rattle.std.specs.Io.KnownBytes.{Appends};
ghost use Rattle.pq_io.specs.Faults.{next_count, HasCause};
ghost use Rattle.pq_io.specs.Pieces.{AppendsPart};
ghost use Rattle.pq_io.specs.Stream.{Stream};

use crate::faults::{Failed, one_more};
use crate::sink::Sink;
use std::io::Write;
use std::marker::Model;

/// A sink over a writer of std, which is flushed after each piece. Each error of the writer is a
/// fault, an interrupted write too, and so is a write that takes no byte of what is left of a piece.
#[derive(Debug, Drop)]
pub struct StreamSink<W> {
    inner: W,
    faults: u64,
}

impl<W> Model for StreamSink<W> {
    ghost Value = { Stream W };

    ghost view = { λ s. record { inner = s.inner; faults = s.faults } };
}

impl<W> StreamSink<W> {
    /// A sink that hands its pieces to the writer.
    pub fn new(inner: W) -> StreamSink<W>
        ensures { result ≡ record { inner = inner; faults = 0 } }
    {
        StreamSink { inner, faults: 0 }
    }
}

impl<W: Write> Sink for StreamSink<W> {
    ghost put = { λ _. None };

    ghost faults = { λ s. s.faults };

    fn write(&mut self, piece: &[u8]) -> Result<(), Failed>
        ensures whole { OnOk result (Appends None None piece.now) }
        ensures part { OnErr result (AppendsPart None None piece.now) }
        ensures cause { HasCause self.old.faults self.new.faults result }

        // The writer's own bytes, where it tells them.
        ensures inner_whole { OnOk result
            (Appends (W.contents self.old.inner) (W.contents self.new.inner) piece.now) }
        ensures inner_part { OnErr result
            (AppendsPart (W.contents self.old.inner) (W.contents self.new.inner) piece.now) }
        ensures counted { OnErr result (self.new.faults ≡ next_count self.old.faults) }
    {
        let put = put_whole(&mut self.inner, piece);
        if put.is_err() {
            self.faults = one_more(self.faults);
        }
        put
    }
}

// Writes the whole piece, and flushes.
fn put_whole<W: Write>(inner: &mut W, piece: &[u8]) -> Result<(), Failed>
    ensures ok { OnOk result (Appends (W.contents inner.old) (W.contents inner.new) piece.now) }
    ensures err { OnErr result
        (AppendsPart (W.contents inner.old) (W.contents inner.new) piece.now) }
{
    let mut done = 0;
    while done < piece.len() {
        match inner.write(&piece[done..]) {
            Ok(0) => return Err(Failed),
            Ok(count) => done += count,
            Err(_) => return Err(Failed),
        }
    }
    inner.flush().map_err(|_| Failed)
}
