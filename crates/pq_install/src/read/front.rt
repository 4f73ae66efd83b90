ghost use Rattle.std.specs.Prelude.{◌≡◌, ◌≤◌, MatchOption, IfErr, IfOk};
ghost use Rattle.std.specs.List.{flat_map};
ghost use Rattle.std.specs.Int.{w16, w32, w64, to_be_bytes};
ghost use Rattle.pq_install.specs.Front.{AreCounted, AreFew, IsAtFront, IsU16, IsU32, IsU64, NoneAtFront, counted_by};
ghost use Rattle.pq_install.specs.Units.{Tells, UnitFails};

use crate::fault::Fault;
use std::alloc::{AllocError, Global};

/// The number in the first two bytes, and the bytes after it.
pub fn u16_at(bytes: &[u8]) -> Option<(u16, &[u8])>
    ensures { MatchOption result (NoneAtFront IsU16 (to_be_bytes w16) bytes.now)
        (λ r. IsAtFront IsU16 (to_be_bytes w16) bytes.now r.0 r.1.now) }
{
    let (front, rest) = bytes.split_first_chunk::<2>()?;
    Some((u16::from_be_bytes(*front), rest))
}

/// The number in the first four bytes, and the bytes after it.
pub fn u32_at(bytes: &[u8]) -> Option<(u32, &[u8])>
    ensures { MatchOption result (NoneAtFront IsU32 (to_be_bytes w32) bytes.now)
        (λ r. IsAtFront IsU32 (to_be_bytes w32) bytes.now r.0 r.1.now) }
{
    let (front, rest) = bytes.split_first_chunk::<4>()?;
    Some((u32::from_be_bytes(*front), rest))
}

/// The number in the first eight bytes, and the bytes after it.
pub fn u64_at(bytes: &[u8]) -> Option<(u64, &[u8])>
    ensures { MatchOption result (NoneAtFront IsU64 (to_be_bytes w64) bytes.now)
        (λ r. IsAtFront IsU64 (to_be_bytes w64) bytes.now r.0 r.1.now) }
{
    let (front, rest) = bytes.split_first_chunk::<8>()?;
    Some((u64::from_be_bytes(*front), rest))
}

// This many numbers of four bytes, and the bytes after them; `None` where there are fewer.
fn u32s_at(
    alloc: Global,
    count: usize,
    bytes: &[u8],
) -> Result<Option<(Vec<u32>, &[u8])>, AllocError>
    ensures { IfOk result (λ found. MatchOption found
        (NoneAtFront (AreCounted IsU32 count) (flat_map (to_be_bytes w32)) bytes.now)
        (λ r. IsAtFront (AreCounted IsU32 count) (flat_map (to_be_bytes w32)) bytes.now r.0.items r.1.now)) }
{
    let mut numbers = Vec::new(alloc);
    let mut rest = bytes;
    for _ in 0..count {
        let Some((number, after)) = u32_at(rest) else {
            return Ok(None);
        };
        numbers.push(number)?;
        rest = after;
    }
    Ok(Some((numbers, rest)))
}

// This many numbers of eight bytes, and the bytes after them; `None` where there are fewer.
fn u64s_at(
    alloc: Global,
    count: usize,
    bytes: &[u8],
) -> Result<Option<(Vec<u64>, &[u8])>, AllocError>
    ensures { IfOk result (λ found. MatchOption found
        (NoneAtFront (AreCounted IsU64 count) (flat_map (to_be_bytes w64)) bytes.now)
        (λ r. IsAtFront (AreCounted IsU64 count) (flat_map (to_be_bytes w64)) bytes.now r.0.items r.1.now)) }
{
    let mut numbers = Vec::new(alloc);
    let mut rest = bytes;
    for _ in 0..count {
        let Some((number, after)) = u64_at(rest) else {
            return Ok(None);
        };
        numbers.push(number)?;
        rest = after;
    }
    Ok(Some((numbers, rest)))
}

/// Numbers of four bytes after their count in two, and the bytes after them.
pub fn counted_u32s_at(alloc: Global, bytes: &[u8]) -> Result<Option<(Vec<u32>, &[u8])>, AllocError>
    ensures { IfOk result (λ found. MatchOption found
        (NoneAtFront (AreFew IsU16 IsU32) (counted_by w16 (to_be_bytes w32)) bytes.now)
        (λ r. IsAtFront (AreFew IsU16 IsU32) (counted_by w16 (to_be_bytes w32)) bytes.now r.0.items r.1.now)) }
{
    match u16_at(bytes) {
        Some((count, rest)) => u32s_at(alloc, usize::from(count), rest),
        None => Ok(None),
    }
}

/// Numbers of eight bytes after their count in four, and the bytes after them.
pub fn counted_u64s_at(alloc: Global, bytes: &[u8]) -> Result<Option<(Vec<u64>, &[u8])>, AllocError>
    ensures { IfOk result (λ found. MatchOption found
        (NoneAtFront (AreFew IsU32 IsU64) (counted_by w32 (to_be_bytes w64)) bytes.now)
        (λ r. IsAtFront (AreFew IsU32 IsU64) (counted_by w32 (to_be_bytes w64)) bytes.now r.0.items r.1.now)) }
{
    match u32_at(bytes) {
        Some((count, rest)) => u64s_at(alloc, count as usize, rest),
        None => Ok(None),
    }
}

/// A count of at most this many in the first two bytes, and the bytes after it.
pub fn count_at(most: u16, bytes: &[u8]) -> Result<(u16, &[u8]), Fault>
    ensures ok { IfOk result (λ r. IsAtFront (λ n. n ≤ most) (to_be_bytes w16) bytes.now r.0 r.1.now) }
    ensures err { IfErr result (Tells (UnitFails (λ n. n ≤ most) (to_be_bytes w16) bytes.now)) }
{
    match u16_at(bytes) {
        Some((count, rest)) if count <= most => Ok((count, rest)),
        _ => Err(Fault::Damaged { left: bytes.len() }),
    }
}
