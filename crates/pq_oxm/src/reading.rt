ghost use Rattle.std.specs.Prelude.{◌≡◌, ◌+◌, ◌≤◌, ◌++◌, ℕ, List, length, IfErr, IfOk, MatchOption};
ghost use Rattle.std.specs.declared.option.Option.TheVariants.{Some};
ghost use Rattle.pq_model.specs.MatchFields.{MatchFields, IsLawfulMatch};
ghost use Rattle.pq_model.specs.Spelling.{match_bytes};
ghost use Rattle.pq_oxm.specs.Faults.{IsMatchFault};
ghost use Rattle.pq_oxm.specs.Standing.{StandsAt};

use crate::fields::fields_of;
use crate::matching::spelling;
use crate::rules::lawful;
use pq_model::Match;
use std::alloc::{AllocError, Global};
use thiserror::Error;

/// Why no match is read.
#[derive(Debug, Drop, Error)]
pub enum MatchFault {
    /// No match is spelled at this byte.
    #[error("no match begins at byte {at}")]
    BadMatch { at: usize },
    /// There is not enough memory.
    #[error("out of memory")]
    Memory,
}

// The match that the bytes begin with, where they begin with the spelling of one. Where they don't, it
// may be any match or none.
fn candidate(bytes: &[u8]) -> Option<Match>
    ensures { (m : MatchFields) (more : List ℕ) → IsLawfulMatch m → bytes.now ≡ match_bytes m ++ more → result ≡ Some m }
{
    if bytes.len() < 4 {
        return None;
    }
    let length = usize::from(u16::from_be_bytes([bytes[2], bytes[3]]));
    if length < 4 {
        return None;
    }
    if bytes.len() < length {
        return None;
    }
    lawful(fields_of(&bytes[4..length]))
}

// The length of the spelling of the match, where the bytes begin with it.
fn spelled_len(alloc: Global, found: &Match, bytes: &[u8]) -> Result<Option<usize>, AllocError>
    ensures { IfOk result (λ found_length. MatchOption found_length
        (StandsAt bytes.now 0 (match_bytes found.now) → ⊥)
        (λ n. StandsAt bytes.now 0 (match_bytes found.now) × (n ≡ length (match_bytes found.now)))) }
{
    let spelled = spelling(alloc, found)?;
    if bytes.starts_with(&spelled) {
        Ok(Some(spelled.len()))
    } else {
        Ok(None)
    }
}

/// The match that is spelled at byte `at`, and the byte after its padding (OpenFlow 1.3.5, section
/// 7.2.3). A match has one spelling: its fields are in a fixed order, each at most once, a mask of all
/// ones is left out, and the padding is 0. So what is read as a match is taken only if its spelling
/// is there. `BadMatch` comes exactly where no match is spelled at `at`.
pub fn read_match(alloc: Global, bytes: &[u8], at: usize) -> Result<(Match, usize), MatchFault>
    ensures ok { IfOk result (λ found. StandsAt bytes.now at (match_bytes found.0) × (found.1 ≡ at + length (match_bytes found.0))) }
    ensures within { IfOk result (λ found. found.1 ≤ length bytes.now) }
    ensures err { IfErr result (IsMatchFault bytes.now at) }
{
    if bytes.len() < at {
        return Err(MatchFault::BadMatch { at });
    }
    let rest = &bytes[at..];
    let Some(found) = candidate(rest) else {
        return Err(MatchFault::BadMatch { at });
    };
    match spelled_len(alloc, &found, rest) {
        Ok(Some(length)) => Ok((found, at + length)),
        Ok(None) => Err(MatchFault::BadMatch { at }),
        Err(_) => Err(MatchFault::Memory),
    }
}

/// Bytes begin with the spelling of one match at most: no spelling is the beginning of another's, and a
/// spelling tells its match.
pub fn no_match_begins_another()
    ensures { (m n : MatchFields) (more others : List ℕ) → IsLawfulMatch m → IsLawfulMatch n
        → match_bytes m ++ more ≡ match_bytes n ++ others → m ≡ n }
{}
