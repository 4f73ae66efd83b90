ghost use Rattle.std.specs.Prelude.{◌≡◌, ◌<◌, ◌≤◌, ◌++◌, length, map, IfOk, OnOk};
ghost use Rattle.pq_auto.specs.Leading.{key_in, leader_in};
ghost use Rattle.pq_auto.specs.Refinement as states;
ghost use Rattle.pq_auto.specs.Refinement.{IsRound, IsLast};

use crate::leading::led;
use crate::lists::number_at;
use crate::partition::Partition;
use crate::table::Table;
use std::alloc::{AllocError, Global};

/// What tells states apart at once: the parity, then the instances that hold.
fn mark(alloc: Global, table: &Table, state: u64) -> Result<Vec<u64>, AllocError>
    requires { state < length table.now.rows }
    ensures { IfOk result (λ key. key.items ≡ states.mark table.now state) }
{
    let mut key = Vec::new(alloc);
    key.push(parity_number(table.is_even(state)))?;
    for instance in table.accepted(state) {
        key.push(u64::from(*instance))?;
    }
    Ok(key)
}

/// 1 for even, 0 for odd.
fn parity_number(even: bool) -> u64
    ensures { result ≡ states.parity_number even }
{
    if even { 1 } else { 0 }
}

/// What tells states apart after a letter: the state's own class, then the classes of its next states.
pub(crate) fn signature(
    alloc: Global,
    table: &Table,
    classes: &[u64],
    state: u64,
) -> Result<Vec<u64>, AllocError>
    requires { state < length table.now.rows }
    ensures { IfOk result (λ key. key.items ≡ key_in table.now classes.now state) }
{
    let mut key = Vec::new(alloc);
    key.push(number_at(classes, state as usize))?;
    push_classes(classes, table.row(state), &mut key)?;
    Ok(key)
}

/// Appends the classes of the states.
pub(crate) fn push_classes(
    classes: &[u64],
    states: &[u64],
    out: &mut Vec<u64>,
) -> Result<(), AllocError>
    ensures { OnOk result (out.new.items ≡ out.old.items ++ map (leader_in classes.now) states.now) }
{
    for state in states {
        out.push(number_at(classes, *state as usize))?;
    }
    Ok(())
}

/// The first round: states parted by their marks.
pub(crate) fn marked(alloc: Global, table: &Table) -> Result<Partition, AllocError>
    ensures { IfOk result (λ parts. IsRound table.now parts) }
{
    table.is_lawful();
    let mut parts = Partition::new(alloc);
    for state in 0..table.count() {
        let key = mark(alloc, table, state)?;
        parts.add(key)?;
    }
    Ok(parts)
}

/// The next round: states parted by their signatures.
fn refined(alloc: Global, table: &Table, parts: &Partition) -> Result<Partition, AllocError>
    requires { IsRound table.now parts.now }
    ensures round { IfOk result (λ finer. IsRound table.now finer) }
    ensures last { IfOk result (λ finer. length finer.firsts ≤ length parts.now.firsts → IsLast table.now parts.now) }
{
    table.is_lawful();
    let mut finer = Partition::new(alloc);
    for state in 0..table.count() {
        let key = signature(alloc, table, parts.classes(), state)?;
        finer.add(key)?;
    }
    Ok(finer)
}

/// The states parted so that classes lead to classes, with no more classes than it takes: rounds until one adds no class
/// (after Moore).
pub(crate) fn settled(alloc: Global, table: &Table) -> Result<Partition, AllocError>
    ensures { IfOk result (λ parts. IsLast table.now parts) }
{
    let mut parts = led(alloc, table)?;
    loop {
        let finer = refined(alloc, table, &parts)?;
        if finer.count() <= parts.count() {
            return Ok(parts);
        }
        parts = finer;
    }
}
