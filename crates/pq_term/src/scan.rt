//! The token that comes next.
ghost use Rattle.std.specs.Prelude.{◌≡◌, ◌≤◌, length, drop, false};
ghost use Rattle.std.specs.List.{prefix_len};
ghost use Rattle.pq_term.specs.Bytes.{is_run_byte};
ghost use Rattle.pq_term.specs.Tokens.{after_blanks, token_or_none, run_token, first_token, next_of, IsWithin, IsFormed};

use crate::bytes::{is_blank, is_run_byte, is_symbol};
use crate::forms::form_of;
use crate::token::{Kind, Next, Token};

/// The place of the first byte at or after `at` that is neither white space nor in a comment, or the text's
/// length. A comment runs from `#` to the end of its line.
fn skip_blanks(bytes: &[u8], at: usize) -> usize
    requires { at ≤ length bytes.now }
    ensures rest { drop result bytes.now ≡ after_blanks false (drop at bytes.now) }
    ensures after { at ≤ result }
    ensures within { result ≤ length bytes.now }
{
    let mut inside = false;
    for place in at..bytes.len() {
        let byte = bytes[place];
        if inside {
            inside = byte != b'\n';
        } else if byte == b'#' {
            inside = true;
        } else if !is_blank(byte) {
            return place;
        }
    }
    bytes.len()
}

/// The number of bytes of the run that the text begins with, which is as long as can be.
fn run_len(text: &[u8]) -> usize
    ensures { result ≡ prefix_len is_run_byte text.now }
{
    for len in 0..text.len() {
        if !is_run_byte(text[len]) {
            return len;
        }
    }
    text.len()
}

/// A token of this kind, or none that begins at the place.
fn token_or_none(place: usize, len: usize, kind: Option<Kind>) -> Next
    ensures { result ≡ token_or_none place len kind }
{
    match kind {
        Some(kind) => Next::Token(Token {
            kind,
            at: place,
            len,
        }),
        None => Next::NoToken(place),
    }
}

/// The token that the rest of a text begins with, which is at the place.
fn first_token(place: usize, rest: &[u8]) -> Next
    ensures { result ≡ first_token place rest.now }
{
    match rest {
        [] => Next::End,
        [first, ..] if is_run_byte(*first) => run_token(place, &rest[..run_len(rest)]),
        [first, ..] if is_symbol(*first) => token_or_none(place, 1, Some(Kind::Symbol)),
        [b'>', b'>', ..] => token_or_none(place, 2, Some(Kind::Symbol)),
        _ => Next::NoToken(place),
    }
}

/// A run that begins at the place, as a token.
fn run_token(place: usize, run: &[u8]) -> Next
    ensures { result ≡ run_token place run.now }
{
    token_or_none(place, run.len(), form_of(run))
}

/// What comes next in the text from byte `at` on, beyond white space and comments: the token that is first,
/// `End` where there is nothing more, or `NoToken` with the place of the next byte, where no token begins. The
/// bytes before `at` are not looked at, and places are counted from the first byte of `bytes`.
///
/// A run of letters, digits, `_`, `.`, `:` and `/`, as long as can be, is one token or none.
pub fn token_at(bytes: &[u8], at: usize) -> Next
    requires { at ≤ length bytes.now }
    ensures value { result ≡ next_of bytes.now at }
    ensures within { IsWithin at (length bytes.now) result }
    ensures form { IsFormed bytes.now result }
{
    let place = skip_blanks(bytes, at);
    first_token(place, &bytes[place..])
}
