//! The automaton of one expression.
ghost use Rattle.std.specs.Prelude.{◌≡◌, ◌<◌, ◌≤◌, ◌+◌, ◌*◌, Some, length, map, IfOk, OnOk, slice_get};
ghost use Rattle.pq_expr.specs.Expr.{expr_tree, ExprTree, IsLawful};
ghost use Rattle.pq_deriv.specs.Most.{most};
ghost use Rattle.pq_deriv.specs.Rests.{IsRest};
ghost use Rattle.pq_auto.specs.Searched.{IsSearched};
ghost use Rattle.pq_auto.specs.Machine.{IsLeastMachine};
ghost use Rattle.pq_auto.specs.Telling.{IsTable};
ghost use Rattle.pq_auto.specs.Rests.{after, alone, held, behind, rest_of, rests, whole, side_of, AreAlike, AreLike, AreRestsOf, IsRestOf, Rest};
ghost use Rattle.pq_auto.specs.Search.{targets, AreNumbers, IsNumber};
ghost use Rattle.pq_auto.specs.Tables.{lists};

use crate::met::Met;
use crate::quotient::least;
use crate::table::Table;
use indexmap::IndexSet;
use pq_deriv::{accepts, start, step};
use pq_expr::{Expr, Side};
use pq_io::Steps;
use std::alloc::{AllocError, Global};
use std::sync::ledger::Ledger;

/// The side of the half step after words of even length, or of odd length.
fn side_of(even: bool) -> Side
    ensures { result ≡ side_of even }
{
    if even { Side::In } else { Side::Out }
}

/// The number of a state, a new one where the state is new.
fn number(states: &mut IndexSet<Met>, state: Met) -> Result<u64, AllocError>
    requires { AreLike state states.old.keys }
    ensures number { IfOk result (λ n. IsNumber (rests states.old.keys) (rest_of state) n (rests states.new.keys)) }
    ensures alike { AreLike state states.new.keys }
    ensures rests { (e : ExprTree) → AreRestsOf e states.old.keys → IsRestOf e state → AreRestsOf e states.new.keys }
{
    match states.insert_full(state) {
        Ok((number, _)) => Ok(number as u64),
        Err(_) => Err(AllocError),
    }
}

/// The numbers of the states after one letter more, letter by letter. Each letter steps the state once.
fn expand<L: Ledger>(
    alloc: Global,
    alphabet: &[Vec<bool>],
    place: usize,
    states: &mut IndexSet<Met>,
    steps: &mut Steps<L>,
) -> Result<Vec<u64>, AllocError>
    requires place { place < length states.old.keys }
    requires alike { AreAlike states.old.keys }
    ensures counted { OnOk result (steps.new ≡ steps.old + length alphabet.now) }
    ensures row { IfOk result (λ row. (r : Rest) → slice_get (rests states.old.keys) place ≡ Some r
        → AreNumbers (rests states.old.keys) (targets (after (map (λ v. v.items) alphabet.now)) r 0 (length alphabet.now)) row.items
        (rests states.new.keys)) }
    ensures alike { OnOk result (AreAlike states.new.keys) }
    ensures rests { OnOk result ((e : ExprTree) → AreRestsOf e states.old.keys → AreRestsOf e states.new.keys) }
{
    let mut row = Vec::with_capacity(alloc, alphabet.len())?;
    for letter in 0..alphabet.len() {
        let next = step_at(alloc, &states.as_slice()[place], &alphabet[letter], steps)?;
        row.push(number(states, next)?)?;
    }
    Ok(row)
}

/// The state after one half step more, and the parity.
fn step_at<L: Ledger>(
    alloc: Global,
    state: &Met,
    signature: &[bool],
    steps: &mut Steps<L>,
) -> Result<Met, AllocError>
    ensures expr { IfOk result (λ s. s.0.expr ≡ state.now.0.expr) }
    ensures rest { IfOk result (λ s. rest_of s ≡ behind (rest_of state.now) signature.now) }
    ensures own { IfOk result (λ s. IsRest (expr_tree s.0.expr) s.0.rest) }
    ensures counted { steps.new ≡ steps.old + 1 }
{
    let next = step(alloc, &state.state, side_of(state.even), signature, steps)?;
    Ok(Met {
        state: next,
        even: !state.even,
    })
}

/// For each state whether the next half step is In.
fn parities(alloc: Global, states: &[Met]) -> Result<Vec<bool>, AllocError>
    ensures { IfOk result (λ v. v.items ≡ map (λ r. r.even) (rests states.now)) }
{
    let mut even = Vec::with_capacity(alloc, states.len())?;
    for state in states {
        even.push(state.even)?;
    }
    Ok(even)
}

/// The place 0 where the words are held, else none.
fn alone(alloc: Global, holds: bool) -> Result<Vec<u32>, AllocError>
    ensures { IfOk result (λ v. v.items ≡ alone holds) }
{
    let mut places = Vec::new(alloc);
    if !holds {
        return Ok(places);
    }
    places.push(0)?;
    Ok(places)
}

/// For each state the place 0 where it accepts the empty word, else none.
fn acceptances(alloc: Global, states: &[Met]) -> Result<Vec<Vec<u32>>, AllocError>
    ensures { IfOk result (λ v. map (λ places. places.items) v.items ≡ map held (rests states.now)) }
{
    let mut all = Vec::with_capacity(alloc, states.len())?;
    for state in states {
        all.push(alone(alloc, accepts(&state.state))?)?;
    }
    Ok(all)
}

/// The numbers of all states after one letter more, state by state, and the states, in the order in which words reach them.
fn search<L: Ledger>(
    alloc: Global,
    expr: &Expr,
    alphabet: &[Vec<bool>],
    steps: &mut Steps<L>,
) -> Result<(Vec<Vec<u64>>, IndexSet<Met>), AllocError>
    ensures searched { IfOk result (λ r. IsSearched (after (map (λ v. v.items) alphabet.now)) (whole (expr_tree expr.now))
        (length alphabet.now) (rests r.1.keys) (lists r.0.items)) }
    ensures all { IfOk result (λ r. length r.1.keys ≤ length r.0.items) }
    ensures alike { IfOk result (λ r. AreAlike r.1.keys) }
    ensures rests { IfOk result (λ r. AreRestsOf (expr_tree expr.now) r.1.keys) }
    ensures counted { IfOk result (λ r. steps.new ≡ steps.old + length r.0.items * length alphabet.now) }
{
    let mut states = IndexSet::new(alloc);
    let first = Met {
        state: start(alloc, expr)?,
        even: true,
    };
    number(&mut states, first)?;
    let mut rows = Vec::new(alloc);
    'states: while rows.len() < states.len() {
        let row = expand(alloc, alphabet, rows.len(), &mut states, steps)?;
        rows.push(row)?;
    }
    Ok((rows, states))
}

/// The automaton of the rests of an expression over the letters of an alphabet. Each step of a state is counted.
fn explored<L: Ledger>(
    alloc: Global,
    expr: &Expr,
    alphabet: &[Vec<bool>],
    steps: &mut Steps<L>,
) -> Result<Table, AllocError>
    ensures table { IfOk result (λ t. IsTable (map (λ v. v.items) alphabet.now) t (expr_tree expr.now)) }
    ensures counted { OnOk result (IsLawful (expr_tree expr.now) → steps.new ≤ steps.old + length alphabet.now * (2 * most (expr_tree expr.now))) }
{
    let letters = alphabet.len() as u64;
    let (rows, states) = search(alloc, expr, alphabet, steps)?;
    let keys = states.as_slice();
    let even = parities(alloc, keys)?;
    let accepted = acceptances(alloc, keys)?;
    Ok(Table {
        letters,
        rows,
        even,
        accepted,
    })
}

/// The least automaton of an expression over the letters of an alphabet: of its states no two have the same parity and hold
/// the same words from there on. Each step of a state is counted.
///
/// Where no list of operands is empty, words of each parity lead to at most `most` states, and there are at most twice as
/// many steps a letter.
pub(crate) fn single<L: Ledger>(
    alloc: Global,
    expr: &Expr,
    alphabet: &[Vec<bool>],
    steps: &mut Steps<L>,
) -> Result<Table, AllocError>
    ensures table { IfOk result (λ t. IsTable (map (λ v. v.items) alphabet.now) t (expr_tree expr.now)) }
    ensures least { IfOk result IsLeastMachine }
    ensures counted { OnOk result (IsLawful (expr_tree expr.now) → steps.new ≤ steps.old + length alphabet.now * (2 * most (expr_tree expr.now))) }
{
    let table = explored(alloc, expr, alphabet, steps)?;
    let least = least(alloc, &table)?;
    Ok(least)
}
