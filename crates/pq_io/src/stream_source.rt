ghost use Rattle.std.specs.Prelude.{◌≡◌, None, OnErr};
ghost use Rattle.std.specs.Io.{ReadsAtMost};
ghost use Rattle.std.specs.Io.KnownBytes.{ReadConsumes};
ghost use Rattle.pq_io.specs.Faults.{next_count, HasCause};
ghost use Rattle.pq_io.specs.Stream.{Stream};

use crate::faults::{Failed, one_more};
use crate::source::Source;
use std::io::Read;
use std::marker::Model;

/// A source over a reader of std. Each error of the reader is a fault, an interrupted read too.
#[derive(Debug, Drop)]
pub struct StreamSource<R> {
    inner: R,
    faults: u64,
}

impl<R> Model for StreamSource<R> {
    ghost Value = { Stream R };

    ghost view = { λ s. record { inner = s.inner; faults = s.faults } };
}

impl<R> StreamSource<R> {
    /// A source that gives what the reader gives.
    pub fn new(inner: R) -> StreamSource<R>
        ensures { result ≡ record { inner = inner; faults = 0 } }
    {
        StreamSource { inner, faults: 0 }
    }
}

impl<R: Read> Source for StreamSource<R> {
    ghost left = { λ _. None };

    ghost faults = { λ s. s.faults };

    fn read(&mut self, into: &mut [u8]) -> Result<usize, Failed>
        ensures bound { ReadsAtMost result into.new }
        ensures bytes { ReadConsumes None None result into.new }
        ensures cause { HasCause self.old.faults self.new.faults result }

        // The reader's own bytes, where it tells them.
        ensures inner { ReadConsumes
            (R.remaining self.old.inner) (R.remaining self.new.inner) result into.new }
        ensures counted { OnErr result (self.new.faults ≡ next_count self.old.faults) }
    {
        match self.inner.read(into) {
            Ok(count) => Ok(count),
            Err(_) => {
                self.faults = one_more(self.faults);
                Err(Failed)
            }
        }
    }
}
