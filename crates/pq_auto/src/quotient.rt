//! The automaton of the classes of states that no word tells apart.
ghost use Rattle.std.specs.Prelude.{◌≡◌, ◌<◌, length, map, IfOk};
ghost use Rattle.pq_auto.specs.Parts.{class_of};
ghost use Rattle.pq_auto.specs.Machine.{IsLeastMachine, SaySame};
ghost use Rattle.pq_auto.specs.Numbering.{IsNumbered};
ghost use Rattle.pq_auto.specs.Refinement.{AreJoined, IsLast, quotient, row_of};

use crate::partition::Partition;
use crate::refinement::{push_classes, settled};
use crate::table::Table;
use std::alloc::{AllocError, Global};

/// The row of a state, by classes.
fn class_row(
    alloc: Global,
    table: &Table,
    parts: &Partition,
    state: u64,
) -> Result<Vec<u64>, AllocError>
    requires { state < length table.now.rows }
    ensures { IfOk result (λ row. row.items ≡ map (class_of parts.now) (row_of table.now state)) }
{
    let mut row = Vec::new(alloc);
    push_classes(parts.classes(), table.row(state), &mut row)?;
    Ok(row)
}

/// The rows of the classes: each has that of its first state, by classes.
fn class_rows(alloc: Global, table: &Table, parts: &Partition) -> Result<Vec<Vec<u64>>, AllocError>
    requires { IsLast table.now parts.now }
    ensures { IfOk result (λ rows. map (λ row. row.items) rows.items ≡ (quotient table.now parts.now).rows) }
{
    table.is_lawful();
    let mut rows = Vec::new(alloc);
    for first in parts.firsts() {
        rows.push(class_row(alloc, table, parts, *first)?)?;
    }
    Ok(rows)
}

/// The parities of the classes: each has that of its first state.
fn class_parities(alloc: Global, table: &Table, parts: &Partition) -> Result<Vec<bool>, AllocError>
    requires { IsLast table.now parts.now }
    ensures { IfOk result (λ even. even.items ≡ (quotient table.now parts.now).even) }
{
    table.is_lawful();
    let mut even = Vec::new(alloc);
    for first in parts.firsts() {
        even.push(table.is_even(*first))?;
    }
    Ok(even)
}

/// What the classes accept: each what its first state does.
fn class_accepted(
    alloc: Global,
    table: &Table,
    parts: &Partition,
) -> Result<Vec<Vec<u32>>, AllocError>
    requires { IsLast table.now parts.now }
    ensures { IfOk result (λ lists. map (λ list. list.items) lists.items ≡ (quotient table.now parts.now).accepted) }
{
    table.is_lawful();
    let mut lists = Vec::new(alloc);
    for first in parts.firsts() {
        let mut list = Vec::new(alloc);
        list.extend_from_slice(table.accepted(*first))?;
        lists.push(list)?;
    }
    Ok(lists)
}

/// The automaton of the classes.
fn joined(alloc: Global, table: &Table, parts: &Partition) -> Result<Table, AllocError>
    requires { IsLast table.now parts.now }
    ensures { IfOk result (λ classes. classes ≡ quotient table.now parts.now) }
{
    table.is_lawful();
    let letters = table.letters();
    let rows = class_rows(alloc, table, parts)?;
    let even = class_parities(alloc, table, parts)?;
    let accepted = class_accepted(alloc, table, parts)?;
    Ok(Table {
        letters,
        rows,
        even,
        accepted,
    })
}

/// The least automaton that says the same of each word: states that no word tells apart are joined. Where states are numbered
/// by their least words, so are the classes.
///
/// States are parted by their marks, then in rounds by the classes that each letter leads to. A round compares one row for
/// each state, and looks up a key of its length for each state that leaves its class; the last rounds do so for every state.
pub fn least(alloc: Global, table: &Table) -> Result<Table, AllocError>
    ensures letters { IfOk result (λ classes. classes.letters ≡ table.now.letters) }
    ensures same { IfOk result (λ classes. SaySame table.now classes) }
    ensures least { IfOk result IsLeastMachine }
    ensures numbered { IfOk result (λ classes. IsNumbered table.now → IsNumbered classes) }
    ensures joined { IfOk result (λ classes. AreJoined table.now classes) }
{
    table.is_lawful();
    let parts = settled(alloc, table)?;
    let classes = joined(alloc, table, &parts)?;
    Ok(classes)
}
