ghost use Rattle.std.specs.Prelude.{◌≡◌, ◌≤◌, true, [], length, take, MatchOption};
ghost use Rattle.pq_speaker.specs.Division.{divided, is_whole, uncut};

use crate::header::{HEADER_SIZE, header_of};

/// The size of the message that begins these bytes, if it is whole.
pub fn message_size(bytes: &[u8]) -> Option<usize>
    ensures { MatchOption result
        (divided [] bytes.now ≡ uncut bytes.now)
        (λ n. (n ≤ length bytes.now) × (is_whole (take n bytes.now) ≡ true)) }
{
    if bytes.len() < HEADER_SIZE {
        return None;
    }
    let size = usize::from(header_of(bytes).length);
    if size < HEADER_SIZE {
        return None;
    }
    if bytes.len() < size {
        return None;
    }
    Some(size)
}
