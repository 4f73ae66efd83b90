ghost use Rattle.std.specs.Prelude.{◌≡◌, ◌<◌, ◌≤◌, ◌++◌, ◌∷◌, [], ◌↔◌, length, nat_lt, IfErr, IfOk, IsTrue, MatchOption};
ghost use Rattle.std.specs.List.{flat_map, list_all};
ghost use Rattle.std.specs.Int.{w16};
ghost use Rattle.pq_fields.specs.Packet.{is_before};
ghost use Rattle.pq_model.specs.Buckets.{instance_numbers};
ghost use Rattle.pq_model.specs.Install.{AscendsBy, IsLawfulRow, pair_bytes, row_bytes};
ghost use Rattle.pq_install.specs.Following.{AtLast};
ghost use Rattle.pq_install.specs.Front.{AreCounted, AreFew, IsAtFront, IsU16, NoneAtFront, counted_by};
ghost use Rattle.pq_install.specs.Rows.{AreReadRows, HasNumbers, HasPairs, label_numbers};
ghost use Rattle.pq_install.specs.Units.{CountedFails, IsSection, ListFails, Tells, UnitFails};

use crate::fault::Fault;
use crate::install::ReportRow;
use crate::read::front::{count_at, counted_u64s_at, u16_at};
use pq_fields::Label;
use pq_model::Instance;
use std::alloc::{AllocError, Global};

/// The greatest VLAN number that marks a packet.
const MOST_TAG: u16 = 4094;

// The instance at the front, whatever its query is.
fn pair_at(alloc: Global, bytes: &[u8]) -> Result<Option<(Instance, &[u8])>, AllocError>
    ensures { IfOk result (λ found. MatchOption found
        (NoneAtFront HasNumbers pair_bytes bytes.now)
        (λ r. IsAtFront HasNumbers pair_bytes bytes.now r.0 r.1.now)) }
{
    let Some((query, rest)) = u16_at(bytes) else {
        return Ok(None);
    };
    let Some((values, rest)) = counted_u64s_at(alloc, rest)? else {
        return Ok(None);
    };
    let label = Label::of(values);
    Ok(Some((Instance { query, label }, rest)))
}

// This many instances; `None` where there are fewer.
fn pairs_at(
    alloc: Global,
    count: usize,
    bytes: &[u8],
) -> Result<Option<(Vec<Instance>, &[u8])>, AllocError>
    ensures { IfOk result (λ found. MatchOption found
        (NoneAtFront (AreCounted HasNumbers count) (flat_map pair_bytes) bytes.now)
        (λ r. IsAtFront (AreCounted HasNumbers count) (flat_map pair_bytes) bytes.now r.0.items r.1.now)) }
{
    let mut pairs = Vec::new(alloc);
    let mut rest = bytes;
    for _ in 0..count {
        let Some((pair, after)) = pair_at(alloc, rest)? else {
            return Ok(None);
        };
        pairs.push(pair)?;
        rest = after;
    }
    Ok(Some((pairs, rest)))
}

// Instances after their count.
fn counted_pairs_at(
    alloc: Global,
    bytes: &[u8],
) -> Result<Option<(Vec<Instance>, &[u8])>, AllocError>
    ensures { IfOk result (λ found. MatchOption found
        (NoneAtFront (AreFew IsU16 HasNumbers) (counted_by w16 pair_bytes) bytes.now)
        (λ r. IsAtFront (AreFew IsU16 HasNumbers) (counted_by w16 pair_bytes) bytes.now r.0.items r.1.now)) }
{
    match u16_at(bytes) {
        Some((count, rest)) => pairs_at(alloc, usize::from(count), rest),
        None => Ok(None),
    }
}

// The row at the front, whatever its tag and its instances are.
fn row_at(alloc: Global, bytes: &[u8]) -> Result<Option<(ReportRow, &[u8])>, AllocError>
    ensures { IfOk result (λ found. MatchOption found
        (NoneAtFront HasPairs row_bytes bytes.now)
        (λ r. IsAtFront HasPairs row_bytes bytes.now r.0 r.1.now)) }
{
    let Some((tag, rest)) = u16_at(bytes) else {
        return Ok(None);
    };
    let Some((pairs, rest)) = counted_pairs_at(alloc, rest)? else {
        return Ok(None);
    };
    Ok(Some((ReportRow { tag, pairs }, rest)))
}

// Whether one label is below another: the first value that differs decides, and a label is
// before each that it begins.
fn label_is_below(a: &[u64], b: &[u64]) -> bool
    ensures { result ≡ is_before (label_numbers a.now) (label_numbers b.now) }
{
    a.cmp(b).is_lt()
}

// Whether one instance is below another, by their queries and then by their labels.
fn pair_is_below(a: &Instance, b: &Instance) -> bool
    ensures { result ≡ is_before (instance_numbers a.now) (instance_numbers b.now) }
{
    a.query < b.query || (a.query == b.query && label_is_below(a.label.values(), b.label.values()))
}

// Whether each instance is below the next.
fn ascend(pairs: &[Instance]) -> bool
    ensures { IsTrue result ↔ AscendsBy instance_numbers pairs.now }
{
    let mut left = pairs;
    while let [first, rest @ ..] = left {
        if let [second, ..] = rest {
            if !pair_is_below(first, second) {
                return false;
            }
        }
        left = rest;
    }
    true
}

// Whether all instances are of the queries, of which there are this many.
fn are_of_queries(pairs: &[Instance], queries: usize) -> bool
    ensures { result ≡ list_all (λ i. nat_lt i.query queries) pairs.now }
{
    for pair in pairs {
        if usize::from(pair.query) >= queries {
            return false;
        }
    }
    true
}

// Whether the row is one of a report on this many queries.
fn is_row(queries: usize, row: &ReportRow) -> bool
    requires { HasPairs row.now }
    ensures { IsTrue result ↔ IsLawfulRow queries row.now }
{
    if row.tag == 0 {
        return false;
    }
    if row.tag > MOST_TAG {
        return false;
    }
    if row.pairs.is_empty() {
        return false;
    }
    if !are_of_queries(&row.pairs, queries) {
        return false;
    }
    ascend(&row.pairs)
}

// Whether the last row, where there is one, has a smaller tag.
fn comes_after(before: &[ReportRow], tag: u16) -> bool
    ensures { IsTrue result ↔ AtLast (λ row. row.tag < tag) before.now }
{
    match before.last() {
        Some(last) => last.tag < tag,
        None => true,
    }
}

// Whether the row may follow those before it.
fn may_follow(queries: usize, before: &[ReportRow], row: &ReportRow) -> bool
    requires before { AreReadRows queries before.now }
    requires row { HasPairs row.now }
    ensures { IsTrue result ↔ AreReadRows queries (before.now ++ row.now ∷ []) }
{
    if !is_row(queries, row) {
        return false;
    }
    comes_after(before, row.tag)
}

// The row at the front that may follow those before it.
fn next_row<'a>(
    alloc: Global,
    queries: usize,
    before: &[ReportRow],
    bytes: &'a [u8],
) -> Result<(ReportRow, &'a [u8]), Fault>
    requires few { queries ≤ 256 }
    requires before { AreReadRows queries before.now }
    ensures ok { IfOk result (λ r. IsAtFront (λ row. AreReadRows queries (before.now ++ row ∷ [])) row_bytes bytes.now r.0 r.1.now) }
    ensures err { IfErr result (Tells (UnitFails (λ row. AreReadRows queries (before.now ++ row ∷ [])) row_bytes bytes.now)) }
{
    let Some((row, rest)) = row_at(alloc, bytes)? else {
        return Err(Fault::Damaged { left: bytes.len() });
    };
    if !may_follow(queries, before, &row) {
        return Err(Fault::Damaged { left: bytes.len() });
    }
    Ok((row, rest))
}

// This many rows, each of which may follow those before it.
fn row_list(
    alloc: Global,
    queries: usize,
    count: u16,
    bytes: &[u8],
) -> Result<(Vec<ReportRow>, &[u8]), Fault>
    requires { queries ≤ 256 }
    ensures length { IfOk result (λ r. length r.0.items ≡ count) }
    ensures ok { IfOk result (λ r. IsAtFront (AreReadRows queries) (flat_map row_bytes) bytes.now r.0.items r.1.now) }
    ensures err { IfErr result (Tells (ListFails (AreReadRows queries) row_bytes count bytes.now)) }
{
    let mut rows = Vec::new(alloc);
    let mut rest = bytes;
    for _ in 0..count {
        let (row, after) = next_row(alloc, queries, &rows, rest)?;
        rows.push(row)?;
        rest = after;
    }
    Ok((rows, rest))
}

/// The rows at the front of a report on this many queries: at most 4,094, after their count.
pub fn rows_at(
    alloc: Global,
    queries: usize,
    bytes: &[u8],
) -> Result<(Vec<ReportRow>, &[u8]), Fault>
    requires { queries ≤ 256 }
    ensures ok { IfOk result (λ r. IsSection 4094 (AreReadRows queries) row_bytes bytes.now r.0.items r.1.now) }
    ensures err { IfErr result (Tells (CountedFails 4094 (AreReadRows queries) row_bytes bytes.now)) }
{
    let (count, rest) = count_at(MOST_TAG, bytes)?;
    row_list(alloc, queries, count, rest)
}
