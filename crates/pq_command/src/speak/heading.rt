//! The line with the length of the install, and the reading of it and of the install.
ghost use Rattle.std.specs.Prelude.{◌≡◌, ◌<◌, ◌≤◌, ℕ, List, None, Some, drop, length, MatchOption, IfErr, IfOk, IfSome};
ghost use Rattle.std.specs.Io.KnownBytes.{Consumes};
ghost use Rattle.pq_command.specs.Reading.{HasReadCause, install_limit};
ghost use Rattle.pq_command.specs.Speaks.{IsReadEnough, IsUnread, line_end, needs_more, stated};

use crate::reading::{INSTALL_LIMIT, PIECE, Unread, zeros};
use pq_io::Source;
use pq_term::decimal_value;
use std::alloc::Global;

/// The most bytes of the line, with its line feed.
const LINE: usize = 10;

/// The greatest length that the line states.
const MOST: u64 = 999_999_999;

/// What the line states.
#[derive(Clone, Copy)]
pub(crate) struct Heading {
    /// The length of the install.
    pub(crate) size: usize,
    /// Where the install begins.
    pub(crate) at: usize,
}

/// The place of a line feed among the first ten bytes.
fn line_end(text: &[u8]) -> Option<usize>
    ensures place { result ≡ line_end text.now }
    ensures within { IfSome result (λ end. (end < length text.now) × (end < 10)) }
{
    let front = &text[..text.len().min(LINE)];
    front.iter().position(|byte| *byte == b'\n')
}

/// What the line in front of a text states, if it is a length.
pub(crate) fn heading_of(text: &[u8]) -> Option<Heading>
    ensures stated { MatchOption result (stated text.now ≡ None) (λ h. stated text.now ≡ Some (record { size = h.size; rest = drop h.at text.now })) }
    ensures within { IfSome result (λ h. h.at ≤ length text.now) }
{
    let Some(end) = line_end(text) else {
        return None;
    };
    match decimal_value(MOST, &text[..end]) {
        Some(size) => Some(Heading {
            size: size as usize,
            at: end + 1,
        }),
        None => None,
    }
}

/// Whether the line or the install isn't whole yet.
fn needs_more(text: &[u8]) -> bool
    ensures { result ≡ needs_more text.now }
{
    match heading_of(text) {
        Some(heading) => text.len() - heading.at < heading.size,
        None => line_end(text).is_none() && text.len() < LINE,
    }
}

/// Reads until the line and the install are whole, or the line is known to be none, or the input ends.
pub(crate) fn read_opening<S: Source>(alloc: Global, source: &mut S) -> Result<Vec<u8>, Unread>
    ensures ok { IfOk result (λ text. (length text.items ≤ install_limit) × Consumes (S.left source.old) (S.left source.new) text.items
        × IsReadEnough (S.left source.new) text.items) }
    ensures err { IfErr result (λ unread. (text : List ℕ) × Consumes (S.left source.old) (S.left source.new) text × IsUnread unread text) }
    ensures cause { HasReadCause result (S.faults source.old) (S.faults source.new) }
{
    let Ok(mut piece) = zeros(alloc, PIECE) else {
        return Err(Unread::Memory);
    };
    let mut text = Vec::new(alloc);
    for turn in 0..INSTALL_LIMIT + 2 {
        let taken = match source.read(&mut piece) {
            Ok(taken) => taken,
            Err(_) => return Err(Unread::Failed),
        };
        if taken == 0 {
            return Ok(text);
        }
        match text.extend_from_slice(&piece[..taken]) {
            Ok(()) => {}
            Err(_) => return Err(Unread::Memory),
        }
        if text.len() > INSTALL_LIMIT {
            return Err(Unread::TooLong);
        }
        if !needs_more(&text) {
            return Ok(text);
        }
    }
    unreachable!()
}
