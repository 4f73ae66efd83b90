ghost use Rattle.std.specs.Prelude.{◌≡◌, ◌^◌, ◌<◌, ◌≤◌, ℕ, List, length, vec_len, IfErr, IfOk};
ghost use Rattle.std.specs.Io.KnownBytes.{Consumes, IsAtEnd};
ghost use Rattle.pq_command.specs.Reading.{HasReadCause, IsLength};

use pq_io::Source;
use std::alloc::{AllocError, Global};

/// The most bytes that a document has.
pub(crate) const DOCUMENT_LIMIT: usize = 524_288;

/// The most bytes of an install with what follows it.
pub(crate) const INSTALL_LIMIT: usize = 268_435_456;

/// How many bytes are asked for at once.
pub(crate) const PIECE: usize = 16_384;

/// Why an input was not read to its end.
#[derive(Clone, Copy, Debug, PartialEq, Eq)]
pub enum Unread {
    /// A read failed.
    Failed,
    /// There are more bytes than the limit.
    TooLong,
    /// Memory ran out.
    Memory,
}

/// This many bytes.
pub(crate) fn zeros(alloc: Global, len: usize) -> Result<Vec<u8>, AllocError>
    ensures { IfOk result (λ bytes. vec_len bytes ≡ len) }
{
    vec![in alloc; 0u8; len]
}

/// Reads a source to its end, where that comes after at most `limit` bytes. Reading stops at the first fault.
pub fn read_whole<S: Source>(alloc: Global, source: &mut S, limit: usize) -> Result<Vec<u8>, Unread>
    requires { limit < 2 ^ 32 }
    ensures ok { IfOk result (λ text. (length text.items ≤ limit) × Consumes (S.left source.old) (S.left source.new) text.items × IsAtEnd (S.left source.new)) }
    ensures err { IfErr result (λ unread. (text : List ℕ) × Consumes (S.left source.old) (S.left source.new) text × IsLength unread limit (length text)) }
    ensures cause { HasReadCause result (S.faults source.old) (S.faults source.new) }
{
    let Ok(mut piece) = zeros(alloc, PIECE) else {
        return Err(Unread::Memory);
    };
    let mut text = Vec::new(alloc);
    for turn in 0..limit + 2 {
        let taken = match source.read(&mut piece) {
            Ok(taken) => taken,
            Err(_) => return Err(Unread::Failed),
        };
        if taken == 0 {
            return Ok(text);
        }
        match text.extend_from_slice(&piece[..taken]) {
            Ok(()) => {}
            Err(_) => return Err(Unread::Memory),
        }
        if text.len() > limit {
            return Err(Unread::TooLong);
        }
    }
    unreachable!()
}
