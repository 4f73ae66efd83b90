//! The end of an input.
ghost use Rattle.std.specs.Prelude.{◌≤◌, [], length, IfErr, IfOk};
ghost use Rattle.pq_pieces.specs.Lines.{going};
ghost use Rattle.pq_pieces.specs.Reading.{IsFinished};
ghost use Rattle.pq_pieces.specs.Scans.{IsStopped};

use crate::line::Line;
use crate::unread::Unread;

/// A piece of an input.
#[derive(Debug, Drop)]
pub struct Piece {
    /// Its bytes.
    pub text: Vec<u8>,
    /// Whether no other follows.
    pub is_last: bool,
}

/// The piece that the end of the input ends. After a line that parts two pieces another one follows, of no bytes.
pub(crate) fn finished(mut text: Vec<u8>, line: Line, limit: usize) -> Result<Piece, Unread>
    requires short { length text.items ≤ limit }
    ensures finished { IfOk result (IsFinished line text.items) }
    ensures short { IfOk result (λ piece. length piece.text.items ≤ limit) }
    ensures stopped { IfErr result (λ unread. IsStopped unread limit (going line text.items [])) }
{
    if line == Line::TwoMarks {
        return Ok(Piece {
            text,
            is_last: false,
        });
    }
    match text.extend_from_slice(line.marks()) {
        Ok(()) => {}
        Err(_) => return Err(Unread::Memory),
    }
    if text.len() > limit {
        return Err(Unread::TooLong);
    }
    Ok(Piece {
        text,
        is_last: true,
    })
}
