ghost use Rattle.std.specs.Prelude.{◌≡◌, ◌-◌, ◌^◌, ◌<◌, ◌≤◌, ◌↔◌, ◌++◌, min, length, take, drop, Some, IsErr, IfOk, OnErr, Contains};
ghost use Rattle.std.specs.Io.{ReadsAtMost};
ghost use Rattle.std.specs.Io.KnownBytes.{ReadConsumes};
ghost use Rattle.pq_io.specs.Faults.{next_count, HasCause};
ghost use Rattle.pq_io.specs.SourceState.{SourceState, after_read, after_failed_read};

use crate::faults::{Failed, one_more};
use crate::source::Source;
use std::marker::Model;

/// A source of bytes in memory, which fails at the calls that its maker chose.
///
/// Contracts see the bytes that are left, the most that one call gives, the numbers of the calls that
/// fail, and how many calls and faults there were, each count up to the largest `u64`.
#[derive(Debug, Drop)]
pub struct MemorySource {
    bytes: Vec<u8>,
    at: usize,
    most: usize,
    failing: Vec<u64>,
    calls: u64,
    faults: u64,
}

impl Model for MemorySource {
    ghost Value = { SourceState };

    ghost view = { λ s. record {
      left = drop s.at s.bytes.items;
      most = s.most;
      failing = s.failing.items;
      calls = s.calls;
      faults = s.faults;
    } };

    ghost invariant = { λ s. (s.at ≤ length s.bytes.items) × (0 < s.most) };
}

impl MemorySource {
    /// A source that gives these bytes. The calls whose numbers, counted from 1, are in `failing`
    /// fail, and no other.
    pub fn new(bytes: Vec<u8>, failing: Vec<u64>) -> MemorySource
        ensures { result ≡ record {
          left = bytes.items;
          most = 2 ^ 64 - 1;
          failing = failing.items;
          calls = 0;
          faults = 0;
        } }
    {
        MemorySource::cut(bytes, failing, usize::MAX)
    }

    /// As `new`, and no call gives more than `most` bytes, which is at least 1.
    pub fn cut(bytes: Vec<u8>, failing: Vec<u64>, most: usize) -> MemorySource
        requires { 0 < most }
        ensures { result ≡ record {
          left = bytes.items;
          most = most;
          failing = failing.items;
          calls = 0;
          faults = 0;
        } }
    {
        MemorySource {
            bytes,
            at: 0,
            most,
            failing,
            calls: 0,
            faults: 0,
        }
    }
}

impl Source for MemorySource {
    ghost left = { λ s. Some s.left };

    ghost faults = { λ s. s.faults };

    /// Gives as many bytes as are left, as fit into the slice and as one call gives at most. The rest
    /// of the slice stays as it was.
    fn read(&mut self, into: &mut [u8]) -> Result<usize, Failed>
        ensures bound { ReadsAtMost result into.new }
        ensures bytes { ReadConsumes (Some self.old.left) (Some self.new.left) result into.new }
        ensures cause { HasCause self.old.faults self.new.faults result }

        // Exactly which reads fail, and what each leaves.
        ensures fails { IsErr result ↔ Contains self.old.failing (next_count self.old.calls) }
        ensures count { IfOk result (λ n.
            n ≡ min (min (length self.old.left) (length into.old)) self.old.most) }
        ensures copied { IfOk result (λ n. into.new ≡ take n self.old.left ++ drop n into.old) }
        ensures ok { IfOk result (λ n. self.new ≡ after_read self.old n) }
        ensures err { OnErr result (self.new ≡ after_failed_read self.old) }
        ensures untouched { OnErr result (into.new ≡ into.old) }
    {
        self.calls = one_more(self.calls);
        if self.failing.contains(&self.calls) {
            self.faults = one_more(self.faults);
            return Err(Failed);
        }
        let rest = &self.bytes[self.at..];
        let count = rest.len().min(into.len()).min(self.most);
        into[..count].copy_from_slice(&rest[..count]);
        self.at += count;
        Ok(count)
    }
}
