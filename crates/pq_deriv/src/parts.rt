//! Lists of numbers in parts, each after its length.
ghost use Rattle.std.specs.Prelude.{◌≡◌, ◌⊎◌, true, ◌<◌, ◌≤◌, ◌+◌, ◌^◌, ◌++◌, ℕ, List, [], ◌∷◌, length, IfOk, OnOk};
ghost use Rattle.std.proofs.Math.ListN.{get_or};
ghost use Rattle.pq_deriv.specs.Parts.{first_part, behind_part, first_gap, behind_gap, first_set, behind_set, set_before, wide};

use std::alloc::{AllocError, Global};

/// The first part, and what is after it; a part that the numbers cut short is as long as they are.
pub(crate) fn split_part(rest: &[u64]) -> (&[u64], &[u64])
    ensures part { result.0.now ≡ first_part rest.now }
    ensures behind { result.1.now ≡ behind_part rest.now }
{
    let [len, behind @ ..] = rest else {
        return (rest, rest);
    };
    let place = (*len as usize).min(behind.len());
    behind.split_at(place)
}

/// How many empty sets are first, and what is after that number.
pub(crate) fn split_gap(rest: &[u64]) -> (u64, &[u64])
    ensures gap { result.0 ≡ first_gap rest.now }
    ensures behind { result.1.now ≡ behind_gap rest.now }
{
    let [gap, behind @ ..] = rest else {
        return (0, rest);
    };
    (*gap, behind)
}

/// The first set, where this many empty ones are first, and after them this; then how many empty ones are after the first,
/// and what is after that number.
#[tactic(auto, using(crate::proofs::Spread::none_first, crate::proofs::Spread::behind_none))]
pub(crate) fn split_set(gap: u64, left: &[u64]) -> (&[u64], u64, &[u64])
    ensures set { result.0.now ≡ first_set (gap ∷ left.now) }
    ensures gap { result.1 ≡ first_gap (behind_set (gap ∷ left.now)) }
    ensures behind { result.2.now ≡ behind_gap (behind_set (gap ∷ left.now)) }
{
    if gap > 0 {
        let (none, behind) = left.split_at(0);
        return (none, gap - 1, behind);
    }
    let (set, behind) = split_part(left);
    let (gap, behind) = split_gap(behind);
    (set, gap, behind)
}

/// How many of the operands from here on, of this many, have empty sets and can't begin: all where no set is left.
pub(crate) fn idle(begins: bool, gap: u64, left: &[u64], operands: usize) -> usize
    ensures few { result ≤ operands }
    ensures begins { begins ≡ true → result ≡ 0 }
    ensures empty { (result ≤ gap) ⊎ (length left.now ≡ 0) }
{
    if begins {
        return 0;
    }
    if left.is_empty() {
        return operands;
    }
    operands.min(gap as usize)
}

/// Appends the set after this many empty ones, unless it is empty too. The answer is how many empty ones are last then.
pub(crate) fn push_set(out: &mut Vec<u64>, empties: u64, set: &[u64]) -> Result<u64, AllocError>
    requires { empties + 1 < 2 ^ 64 }
    ensures set { IfOk result (λ n. (more : List ℕ) → out.new.items ++ wide n more ≡ out.old.items ++ wide empties (set_before set.now more)) }
    ensures few { IfOk result (λ n. n ≤ empties + 1) }
{
    if set.is_empty() {
        return Ok(empties + 1);
    }
    out.push(empties)?;
    push_part(out, set)?;
    Ok(0)
}

/// Appends the part after its length.
pub(crate) fn push_part(out: &mut Vec<u64>, part: &[u64]) -> Result<(), AllocError>
    ensures { OnOk result (out.new.items ≡ out.old.items ++ (length part.now ∷ part.now)) }
{
    out.push(part.len() as u64)?;
    out.extend_from_slice(part)
}

/// The first number, 0 where there is none.
pub(crate) fn first_number(rest: &[u64]) -> u64
    ensures { result ≡ get_or rest.now 0 0 }
{
    let [first, ..] = rest else {
        return 0;
    };
    *first
}

/// One number.
pub(crate) fn one_number(alloc: Global, number: u64) -> Result<Vec<u64>, AllocError>
    ensures { IfOk result (λ r. r.items ≡ number ∷ []) }
{
    let mut one = Vec::new(alloc);
    one.push(number)?;
    Ok(one)
}
