//! Single bytes of a piece.
ghost use Rattle.std.specs.Prelude.{◌≡◌, IfOk};
ghost use Rattle.pq_pieces.specs.Lines.{Takes, after, marks};

use std::alloc::AllocError;

const MARK: u8 = b'%';

const LINE_FEED: u8 = b'\n';

/// How a line has begun, as far as it may still part two pieces.
#[derive(Clone, Copy, Debug, PartialEq, Eq)]
pub(crate) enum Line {
    /// It has no byte yet.
    Start,
    /// It is `%` so far.
    OneMark,
    /// It is `%%` so far.
    TwoMarks,
    /// It parts no pieces.
    Other,
}

impl Line {
    /// The bytes of the line that belong to no piece yet.
    pub(crate) fn marks(self) -> &'static [u8]
        ensures { result.now ≡ marks self }
    {
        match self {
            Line::Start | Line::Other => b"",
            Line::OneMark => b"%",
            Line::TwoMarks => b"%%",
        }
    }
}

/// How the line goes on after a byte; `None` where the byte ends a line that parts two pieces. Bytes of the piece are appended to it.
#[tactic(auto, using(crate::proofs::Within::goes_on))]
pub(crate) fn take(piece: &mut Vec<u8>, line: Line, byte: u8) -> Result<Option<Line>, AllocError>
    ensures { IfOk result (Takes line piece.old.items byte piece.new.items) }
{
    match (line, byte) {
        (Line::Start, MARK) => Ok(Some(Line::OneMark)),
        (Line::OneMark, MARK) => Ok(Some(Line::TwoMarks)),
        (Line::TwoMarks, LINE_FEED) => Ok(None),
        _ => {
            piece.extend_from_slice(line.marks())?;
            piece.push(byte)?;
            Ok(Some(after(byte)))
        }
    }
}

/// How a line that parts no pieces, or the one after it, begins after a byte.
fn after(byte: u8) -> Line
    ensures { result ≡ after byte }
{
    if byte == LINE_FEED {
        Line::Start
    } else {
        Line::Other
    }
}
