//! Classes of states, each named by one of its states, the leader: a quick way to the parts of a table.
//!
//! In a round each state is compared with its leader alone, so only states that leave a class cost a look-up.
ghost use Rattle.std.specs.Prelude.{◌≡◌, ◌<◌, ◌++◌, ℕ, List, length, map, nat_eq, IfOk};
ghost use Rattle.std.specs.Cmp.Lexicographic.{pointwise};
ghost use Rattle.pq_auto.specs.Leading.{AreLed, AreFirsts, GivesFirst, IsNext, leader_in};
ghost use Rattle.pq_auto.specs.Parts.{first_of};
ghost use Rattle.pq_auto.specs.Refinement.{IsRound};

use crate::lists::number_at;
use crate::partition::{Partition, number};
use crate::refinement::{marked, signature};
use crate::table::Table;
use indexmap::IndexSet;
use std::alloc::{AllocError, Global};

/// Whether the states of both rows are in the same classes, letter by letter.
fn lead_alike(classes: &[u64], row: &[u64], other: &[u64]) -> bool
    requires { length row.now ≡ length other.now }
    ensures { result ≡ pointwise nat_eq (map (leader_in classes.now) row.now) (map (leader_in classes.now) other.now) }
{
    for letter in 0..row.len() {
        if number_at(classes, row[letter] as usize) != number_at(classes, other[letter] as usize) {
            return false;
        }
    }
    true
}

/// The first state that had this key: the state itself where the key is new.
fn first_with(
    seen: &mut IndexSet<Vec<u64>>,
    firsts: &mut Vec<u64>,
    key: Vec<u64>,
    state: u64,
) -> Result<u64, AllocError>
    requires { length firsts.old.items ≡ length seen.old.keys }
    ensures { IfOk result (λ first. GivesFirst (map (λ k. k.items) seen.old.keys) firsts.old.items key.items state first
        (map (λ k. k.items) seen.new.keys) firsts.new.items) }
{
    let place = number(seen, key)?;
    if place == firsts.len() as u64 {
        firsts.push(state)?;
        return Ok(state);
    }
    Ok(number_at(firsts, place as usize))
}

/// The next leader of a state: its own where both lead to the same classes, else the first state that leaves this leader for the
/// same classes.
fn next_leader(
    alloc: Global,
    table: &Table,
    leaders: &[u64],
    seen: &mut IndexSet<Vec<u64>>,
    firsts: &mut Vec<u64>,
    state: u64,
) -> Result<u64, AllocError>
    requires state { state < length table.now.rows }
    requires led { AreLed table.now leaders.now }
    requires firsts { AreFirsts table.now leaders.now (map (λ k. k.items) seen.old.keys) firsts.old.items }
    ensures next { IfOk result (λ next. IsNext table.now leaders.now (map (λ k. k.items) seen.new.keys) firsts.new.items state next) }
    ensures firsts { IfOk result (λ next. AreFirsts table.now leaders.now (map (λ k. k.items) seen.new.keys) firsts.new.items) }
    ensures stays { IfOk result (λ next. (s n : ℕ) → IsNext table.now leaders.now (map (λ k. k.items) seen.old.keys) firsts.old.items s n
        → IsNext table.now leaders.now (map (λ k. k.items) seen.new.keys) firsts.new.items s n) }
{
    table.is_lawful();
    let leader = number_at(leaders, state as usize);
    if lead_alike(leaders, table.row(state), table.row(leader)) {
        return Ok(leader);
    }
    let key = signature(alloc, table, leaders, state)?;
    let first = first_with(seen, firsts, key, state)?;
    Ok(first)
}

/// A round: the next leaders, and whether a state left its class.
fn next_leaders(
    alloc: Global,
    table: &Table,
    leaders: &[u64],
) -> Result<(Vec<u64>, bool), AllocError>
    requires { AreLed table.now leaders.now }
    ensures { IfOk result (λ r. AreLed table.now r.0.items) }
{
    table.is_lawful();
    let mut seen = IndexSet::new(alloc);
    let mut firsts = Vec::new(alloc);
    let mut next = Vec::with_capacity(alloc, leaders.len())?;
    for state in 0..table.count() {
        let leader = next_leader(alloc, table, leaders, &mut seen, &mut firsts, state)?;
        next.push(leader)?;
    }
    Ok((next, !firsts.is_empty()))
}

/// The first state of each state's class.
fn first_states(alloc: Global, parts: &Partition) -> Result<Vec<u64>, AllocError>
    ensures { IfOk result (λ leaders. leaders.items ≡ map (first_of parts.now) parts.now.classes) }
{
    let mut leaders = Vec::new(alloc);
    for class in parts.classes() {
        leaders.push(number_at(parts.firsts(), *class as usize))?;
    }
    Ok(leaders)
}

/// Leaders of the states after this many rounds that no state leaves its class, or after one for each state.
fn leaders(alloc: Global, table: &Table) -> Result<Vec<u64>, AllocError>
    ensures { IfOk result (λ leaders. AreLed table.now leaders.items) }
{
    let parts = marked(alloc, table)?;
    let mut leaders = first_states(alloc, &parts)?;
    for _round in 0..table.count() {
        let (next, left) = next_leaders(alloc, table, &leaders)?;
        leaders = next;
        if !left {
            return Ok(leaders);
        }
    }
    Ok(leaders)
}

/// The states parted by their leaders.
pub(crate) fn led(alloc: Global, table: &Table) -> Result<Partition, AllocError>
    ensures { IfOk result (λ parts. IsRound table.now parts) }
{
    let leaders = leaders(alloc, table)?;
    let mut parts = Partition::new(alloc);
    for state in 0..leaders.len() {
        let leader = number_at(&leaders, state);
        let key = vec![in alloc; leader]?;
        parts.add(key)?;
    }
    Ok(parts)
}
