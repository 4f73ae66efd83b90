ghost use Rattle.std.specs.Prelude.{ℕ, List, Option, OnOk, OnErr};
ghost use Rattle.std.specs.Io.KnownBytes.{Appends};
ghost use Rattle.pq_io.specs.Faults.{HasCause};
ghost use Rattle.pq_io.specs.Pieces.{AppendsPart};

use crate::faults::Failed;

/// Takes bytes, one piece after the other.
pub trait Sink {
    // The bytes that were put so far, where they are known.
    ghost put: { Self → Option (List ℕ) };

    // How many writes failed. The count stays at the largest `u64` once it is there.
    ghost faults: { Self → ℕ };

    /// Adds the whole piece.
    ///
    /// `Failed` comes only with a fault, and then a prefix of the piece was added.

    fn write(&mut self, piece: &[u8]) -> Result<(), Failed>
        ensures whole { OnOk result (Appends (put self.old) (put self.new) piece.now) }
        ensures part { OnErr result (AppendsPart (put self.old) (put self.new) piece.now) }
        ensures cause { HasCause (faults self.old) (faults self.new) result };
}
