//! Automata side by side: a state is the list of the parity and of each automaton's state.
ghost use Rattle.std.specs.Prelude.{◌≡◌, ◌<◌, ◌≤◌, ◌*◌, ◌^◌, ℕ, List, length, map, IfOk};
ghost use Rattle.pq_auto.specs.Machine.{AllBelow, accepted_at, has_even_length, is_even_at, reached};
ghost use Rattle.pq_auto.specs.Search.{run, targets, IsNumber, AreNumbers};
ghost use Rattle.pq_auto.specs.Tables.{accepting, begin, is_even_key, lists, starts, steps};
ghost use Rattle.pq_auto.specs.Searched.{IsSearched};
ghost use Rattle.pq_auto.specs.Telling.{HaveFew};
ghost use Rattle.pq_deriv.specs.Most.{product};

use crate::automaton::Automaton;
use crate::lists::number_at;
use crate::table::Table;
use indexmap::IndexSet;
use std::alloc::{AllocError, Global};

/// The state before any letter.
fn begin(alloc: Global, tables: &[Table]) -> Result<Vec<u64>, AllocError>
    ensures { IfOk result (λ k. k.items ≡ begin tables.now) }
{
    let mut state = Vec::with_capacity(alloc, tables.len() + 1)?;
    state.push(0)?;
    for _table in tables {
        state.push(0)?;
    }
    Ok(state)
}

/// The state after one letter more.
fn step(alloc: Global, tables: &[Table], state: &[u64], letter: u64) -> Result<Vec<u64>, AllocError>
    ensures { IfOk result (λ k. k.items ≡ steps tables.now state.now letter) }
{
    let mut next = Vec::with_capacity(alloc, tables.len() + 1)?;
    let parity = if number_at(state, 0) == 0 { 1 } else { 0 };
    next.push(parity)?;
    for table in tables {
        let number = number_at(state, next.len());
        next.push(table.after(number, letter))?;
    }
    Ok(next)
}

/// The number of a state, a new one where the state is new.
fn number(states: &mut IndexSet<Vec<u64>>, state: Vec<u64>) -> Result<u64, AllocError>
    ensures { IfOk result (λ n. IsNumber (lists states.old.keys) state.items n (lists states.new.keys)) }
{
    match states.insert_full(state) {
        Ok((number, _)) => Ok(number as u64),
        Err(_) => Err(AllocError),
    }
}

/// The numbers of the states after one letter more, letter by letter.
fn expand(
    alloc: Global,
    tables: &[Table],
    letters: u64,
    state: &[u64],
    states: &mut IndexSet<Vec<u64>>,
) -> Result<Vec<u64>, AllocError>
    ensures { IfOk result (λ row. AreNumbers (lists states.old.keys) (targets (steps tables.now) state.now 0 letters) row.items (lists states.new.keys)) }
{
    let mut row = Vec::with_capacity(alloc, letters as usize)?;
    for letter in 0..letters {
        let next = step(alloc, tables, state, letter)?;
        row.push(number(states, next)?)?;
    }
    Ok(row)
}

/// The numbers of all states after one letter more, state by state, and the states, in the order in which words reach them.
fn search(
    alloc: Global,
    tables: &[Table],
    letters: u64,
) -> Result<(Vec<Vec<u64>>, IndexSet<Vec<u64>>), AllocError>
    ensures searched { IfOk result (λ r. IsSearched (steps tables.now) (begin tables.now) letters (lists r.1.keys) (lists r.0.items)) }
    ensures all { IfOk result (λ r. length r.1.keys ≤ length r.0.items) }
{
    let mut states = IndexSet::new(alloc);
    number(&mut states, begin(alloc, tables)?)?;
    let mut rows = Vec::new(alloc);
    'states: while rows.len() < states.len() {
        let state = copy(alloc, &states.as_slice()[rows.len()])?;
        let row = expand(alloc, tables, letters, &state, &mut states)?;
        rows.push(row)?;
    }
    Ok((rows, states))
}

/// An equal list.
fn copy(alloc: Global, numbers: &[u64]) -> Result<Vec<u64>, AllocError>
    ensures { IfOk result (λ v. v.items ≡ numbers.now) }
{
    let mut all = Vec::with_capacity(alloc, numbers.len())?;
    all.extend_from_slice(numbers)?;
    Ok(all)
}

/// For each state whether the words that reach it have even length.
fn parities(alloc: Global, states: &[Vec<u64>]) -> Result<Vec<bool>, AllocError>
    ensures { IfOk result (λ v. v.items ≡ map is_even_key (lists states.now)) }
{
    let mut even = Vec::with_capacity(alloc, states.len())?;
    for state in states {
        even.push(number_at(state, 0) == 0)?;
    }
    Ok(even)
}

/// The places of the automata that hold the words that reach the state.
fn accepting(alloc: Global, tables: &[Table], state: &[u64]) -> Result<Vec<u32>, AllocError>
    requires { length tables.now < 2 ^ 32 }
    ensures { IfOk result (λ v. v.items ≡ accepting tables.now state.now) }
{
    let mut places = Vec::new(alloc);
    for place in 0..tables.len() {
        if tables[place].holds(number_at(state, place + 1)) {
            places.push(place as u32)?;
        }
    }
    Ok(places)
}

/// For each state the places of the automata that hold the words that reach it.
fn all_accepting(
    alloc: Global,
    tables: &[Table],
    states: &[Vec<u64>],
) -> Result<Vec<Vec<u32>>, AllocError>
    requires { length tables.now < 2 ^ 32 }
    ensures { IfOk result (λ v. map (λ places. places.items) v.items ≡ map (accepting tables.now) (lists states.now)) }
{
    let mut all = Vec::with_capacity(alloc, states.len())?;
    for state in states {
        all.push(accepting(alloc, tables, state)?)?;
    }
    Ok(all)
}

/// The automaton that says of each word its parity, and which of the automata hold it.
pub(crate) fn product(
    alloc: Global,
    tables: &[Table],
    letters: u64,
) -> Result<Automaton, AllocError>
    requires { length tables.now < 2 ^ 32 }
    ensures letters { IfOk result (λ a. a.letters ≡ letters) }
    ensures even { IfOk result (λ a. (w : List ℕ) → AllBelow letters w → is_even_at a (reached a w) ≡ has_even_length w) }
    ensures accepted { IfOk result (λ a. (w : List ℕ) → AllBelow letters w
        → accepted_at a (reached a w) ≡ accepting tables.now (run (steps tables.now) (begin tables.now) w)) }
    ensures few { IfOk result (λ a. (ms : List ℕ) → HaveFew letters tables.now ms → length a.rows ≤ 2 * product ms) }
{
    let (rows, states) = search(alloc, tables, letters)?;
    let keys = states.as_slice();
    let even = parities(alloc, keys)?;
    let accepted = all_accepting(alloc, tables, keys)?;
    let table = Table {
        letters,
        rows,
        even,
        accepted,
    };
    Ok(Automaton { table })
}
