ghost use Rattle.std.specs.Prelude.{ℕ, List, Option};
ghost use Rattle.std.specs.Io.{ReadsAtMost};
ghost use Rattle.std.specs.Io.KnownBytes.{ReadConsumes};
ghost use Rattle.pq_io.specs.Faults.{HasCause};

use crate::faults::Failed;

/// Gives bytes, one slice after the other.
pub trait Source {
    // The bytes that reads will give from here on, where they are known.
    ghost left: { Self → Option (List ℕ) };

    // How many reads failed. The count stays at the largest `u64` once it is there.
    ghost faults: { Self → ℕ };

    /// Reads the next bytes into the front of `into`, and returns how many. At 0, for a slice that
    /// is not empty, the input has ended.
    ///
    /// `Failed` comes only with a fault, and takes no byte.

    fn read(&mut self, into: &mut [u8]) -> Result<usize, Failed>
        ensures bound { ReadsAtMost result into.new }
        ensures bytes { ReadConsumes (left self.old) (left self.new) result into.new }
        ensures cause { HasCause (faults self.old) (faults self.new) result };
}
