//! A text as its tokens.
ghost use Rattle.std.specs.Prelude.{◌≡◌, ℕ, List, length, All, IfOk, IfErr};
ghost use Rattle.pq_term.specs.Division.{IsDivision, IsDividedUpTo, IsLast, IsTokenFault, LiesWithin};
ghost use Rattle.pq_term.specs.Tokens.{HasItsForm};

use crate::scan::token_at;
use crate::token::{Next, Token};
use std::alloc::Global;
use thiserror::Error;

/// Why a text is refused.
#[derive(Debug, Drop, Error)]
pub enum TermFault {
    /// At this byte something begins that is not a token.
    #[error("no token begins at byte {at}")]
    Lex { at: usize },
    /// The tokens are not sentence.
    #[error("the tokens are no sentence at byte {at}")]
    Syntax { at: usize },
    /// There is not enough memory.
    #[error("out of memory")]
    Memory,
}

/// The tokens of the whole text, in order. Each has at least one byte, lies within the text, and has the form of its
/// kind. `Lex` comes exactly where the division into tokens meets something that is not a token, with its first byte;
/// `Syntax` never.
pub fn token_list(alloc: Global, bytes: &[u8]) -> Result<Vec<Token>, TermFault>
    ensures ok { IfOk result (λ tokens. IsDivision bytes.now tokens.items) }
    ensures err { IfErr result (IsTokenFault bytes.now) }
    ensures within { IfOk result (λ tokens. All (LiesWithin (length bytes.now)) tokens.items) }
    ensures form { IfOk result (λ tokens. All (HasItsForm bytes.now) tokens.items) }
{
    let mut tokens = Vec::new(alloc);
    let mut at = 0;
    loop {
        match token_at(bytes, at) {
            Next::Token(token) => {
                tokens.push(token).map_err(|_| TermFault::Memory)?;
                at = token.at + token.len;
            }
            Next::End => return Ok(tokens),
            Next::NoToken(place) => return Err(TermFault::Lex { at: place }),
        }
    }
}

/// A text has one division: from any place on, two lists of tokens that each are one after another up to where
/// nothing more can be divided off are the same list, with the same end.
pub fn has_one_division()
    ensures { (bytes : List ℕ) (at : ℕ) (xs ys : List Token) (x y : Next) → IsLast x → IsLast y
        → IsDividedUpTo bytes at xs x → IsDividedUpTo bytes at ys y → (xs ≡ ys) × (x ≡ y) }
{}
