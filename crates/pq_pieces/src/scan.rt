//! The bytes of a piece.
ghost use Rattle.std.specs.Prelude.{◌≤◌, ◌++◌, ℕ, List, length, IfErr, IfOk, OnOk};
ghost use Rattle.pq_pieces.specs.Lines.{going};
ghost use Rattle.pq_pieces.specs.Scans.{Finds, IsStopped};

use crate::line::{Line, take};
use crate::unread::Unread;

/// What is found in bytes.
#[derive(Clone, Copy, Debug)]
pub(crate) enum Found {
    /// The piece ends before a line that parts it from the next; that line's bytes are used too.
    Parted { used: usize },
    /// The piece goes on after all bytes.
    Going { line: Line },
}

/// Appends bytes to a piece, up to the next line that parts two pieces. A piece with more bytes than the limit is refused.
pub(crate) fn scan(
    piece: &mut Vec<u8>,
    line: Line,
    bytes: &[u8],
    limit: usize,
) -> Result<Found, Unread>
    requires short { length piece.old.items ≤ limit }
    ensures found { IfOk result (λ scan. Finds line piece.old.items bytes.now scan piece.new.items) }
    ensures short { OnOk result (length piece.new.items ≤ limit) }
    ensures stopped { IfErr result (λ unread. (rest : List ℕ) → IsStopped unread limit (going line piece.old.items (bytes.now ++ rest))) }
{
    let mut now = line;
    for index in 0..bytes.len() {
        match take(piece, now, bytes[index]) {
            Ok(Some(next)) => now = next,
            Ok(None) => return Ok(Found::Parted { used: index + 1 }),
            Err(_) => return Err(Unread::Memory),
        }
        if piece.len() > limit {
            return Err(Unread::TooLong);
        }
    }
    Ok(Found::Going { line: now })
}
