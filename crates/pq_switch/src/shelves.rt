//! Entries that no longer change, laid out for look-ups.
ghost use Rattle.std.specs.Prelude.{◌≡◌, ◌<◌, ◌≤◌, ℕ, [], ◌∷◌, ◌++◌, length, map, slice_set, IfOk, OnOk};
ghost use Rattle.std.specs.Option.{option_copied, option_map};
ghost use Rattle.pq_model.specs.MatchFields.{vlan_word};
ghost use Rattle.pq_model.specs.SwitchMachine.{taken};
ghost use Rattle.pq_switch.specs.Added.{Climbs, entries_of, in_turn};
ghost use Rattle.pq_switch.specs.Choice.{IsIn, best_of};
ghost use Rattle.pq_switch.specs.Shelves.{AreRows, AreShelved, picked, shelf_at, shelf_for, shelf_of, stated_number};

use crate::entry::{Entry, Slot};
use crate::lookup::{entry_in, preferred};
use pq_fields::{Packet, fits};
use pq_model::Tagged;
use std::alloc::{AllocError, Global};
use std::marker::Model;
use std::mem;

/// Entries on shelves, seen in the order in which they were added.
///
/// An entry lies on the shelf of its table, and of the arriving port and the VLAN word that its match states. So a packet
/// is looked up on four shelves.
#[derive(Drop)]
pub(crate) struct Shelved {
    rows: Vec<Slot>,
    shelves: Vec<Vec<usize>>,
}

impl Model for Shelved {
    ghost use Rattle.std.specs.Prelude.{List, map};
    ghost use Rattle.pq_model.specs.SwitchMachine.{Entry as EntryValue};

    ghost Value = { List EntryValue };

    ghost use Rattle.pq_switch.specs.Added.{entries_of, in_turn};
    ghost use Rattle.pq_switch.specs.Shelves.{AreRows};

    ghost view = { λ s. entries_of (in_turn s.rows.items) };

    ghost invariant = { λ s. AreRows s.rows.items (map (λ v. v.items) s.shelves.items) };
}

impl Shelved {
    /// The same entries on shelves.
    pub(crate) fn of(alloc: Global, rows: Vec<Slot>) -> Result<Shelved, AllocError>
        requires { Climbs (in_turn rows.items) }
        ensures { IfOk result (λ shelved. shelved ≡ entries_of (in_turn rows.items)) }
    {
        let shelves = shelves_of(alloc, &rows)?;
        Ok(Shelved { rows, shelves })
    }

    /// The covering entry of highest priority in a table; of several, the one added first.
    pub(crate) fn taken(&self, table: u8, x: &Tagged) -> Option<&Entry>
        ensures { option_copied result ≡ taken self.now table x.now }
    {
        entry_in(best_on_shelves(&self.rows, &self.shelves, table, x))
    }
}

// Puts each row on its shelf.
fn shelves_of(alloc: Global, rows: &[Slot]) -> Result<Vec<Vec<usize>>, AllocError>
    ensures { IfOk result (λ shelves. AreShelved rows.now (map (λ v. v.items) shelves.items)) }
{
    let mut shelves = empty_shelves(alloc, rows.len() / 2 + 1)?;
    for row in 0..rows.len() {
        put(alloc, &mut shelves, row, &rows[row])?;
    }
    Ok(shelves)
}

fn empty_shelves(alloc: Global, count: usize) -> Result<Vec<Vec<usize>>, AllocError>
    ensures { IfOk result (λ shelves. length shelves.items ≡ count) }
{
    let mut shelves = Vec::new(alloc);
    for _made in 0..count {
        shelves.push(Vec::new(alloc))?;
    }
    Ok(shelves)
}

// Puts the number of a row on its shelf.
fn put(
    alloc: Global,
    shelves: &mut Vec<Vec<usize>>,
    row: usize,
    slot: &Slot,
) -> Result<(), AllocError>
    requires { 0 < length shelves.old.items }
    ensures put { OnOk result (let before = map (λ v. v.items) shelves.old.items in
        let shelf = shelf_for (length shelves.old.items) slot.now.entry in
        map (λ v. v.items) shelves.new.items ≡ slice_set before shelf (shelf_at before shelf ++ row ∷ [])) }
    ensures within { shelf_for (length shelves.old.items) slot.now.entry < length shelves.old.items }
{
    let entry = &slot.entry;
    let shelf = shelf_of(
        shelves.len(),
        entry.table,
        entry.matching.in_port,
        wide_word(entry.matching.vlan),
    );
    put_on(alloc, shelves, shelf, row)
}

fn put_on(
    alloc: Global,
    shelves: &mut Vec<Vec<usize>>,
    shelf: usize,
    row: usize,
) -> Result<(), AllocError>
    requires { shelf < length shelves.old.items }
    ensures { OnOk result (let before = map (λ v. v.items) shelves.old.items in
        map (λ v. v.items) shelves.new.items ≡ slice_set before shelf (shelf_at before shelf ++ row ∷ [])) }
{
    let mut rows = mem::replace(&mut shelves[shelf], Vec::new(alloc));
    rows.push(row)?;
    shelves[shelf] = rows;
    Ok(())
}

// The shelf, of this many, of a table, an arriving port and a VLAN word.
#[tactic(auto, unfolding(crate::specs::Shelves::shelf_of))]
fn shelf_of(count: usize, table: u8, port: Option<u32>, word: Option<u32>) -> usize
    requires { 0 < count }
    ensures value { result ≡ shelf_of count table port word }
    ensures within { result < count }
{
    let mixed = u64::from(table) + 31 * stated_number(port) + 1009 * stated_number(word);
    (mixed % count as u64) as usize
}

// A number of its own for what is stated, and 0 for what isn't.
fn stated_number(stated: Option<u32>) -> u64
    ensures value { result ≡ stated_number stated }
    ensures small { result ≤ 0x100000000 }
{
    match stated {
        Some(number) => u64::from(number) + 1,
        None => 0,
    }
}

// The same word in more bytes.
fn wide_word(stated: Option<u16>) -> Option<u32>
    ensures { result ≡ stated }
{
    stated.map(u32::from)
}

// The port that a packet names.
fn port_of(x: Packet) -> u32
    ensures { result ≡ x.port }
{
    fits(x);
    x.port as u32
}

// The VLAN_VID word of a packet: 0 without a header (OpenFlow 1.3.5, section 7.2.3.7).
fn word_of(vlan: Option<u16>) -> u32
    ensures { result ≡ vlan_word vlan }
{
    match vlan {
        Some(number) => 0x1000 + u32::from(number),
        None => 0,
    }
}

// The covering entry of highest priority in a table; of several, the one added first.
//
// Its match states the packet's arriving port or none, and the packet's VLAN word or none.
fn best_on_shelves<'a>(
    rows: &'a [Slot],
    shelves: &[Vec<usize>],
    table: u8,
    x: &Tagged,
) -> Option<&'a Slot>
    requires { AreRows rows.now (map (λ v. v.items) shelves.now) }
    ensures { option_map (λ s. s.entry) (option_copied result) ≡ taken (entries_of (in_turn rows.now)) table x.now }
{
    let port = Some(port_of(x.packet));
    let word = Some(word_of(x.vlan));
    let best = best_on(rows, rows_on(shelves, table, port, word), table, x, None);
    let best = best_on(rows, rows_on(shelves, table, port, None), table, x, best);
    let best = best_on(rows, rows_on(shelves, table, None, word), table, x, best);
    best_on(rows, rows_on(shelves, table, None, None), table, x, best)
}

// The numbers of the rows on a shelf.
fn rows_on(shelves: &[Vec<usize>], table: u8, port: Option<u32>, word: Option<u32>) -> &[usize]
    requires { 0 < length shelves.now }
    ensures { result.now ≡ shelf_at (map (λ v. v.items) shelves.now) (shelf_of (length shelves.now) table port word) }
{
    let shelf = shelf_of(shelves.len(), table, port, word);
    shelves[shelf].as_slice()
}

// The best of the covering entries among these rows, and the best so far.
fn best_on<'a>(
    rows: &'a [Slot],
    shelf: &[usize],
    table: u8,
    x: &Tagged,
    mut best: Option<&'a Slot>,
) -> Option<&'a Slot>
    ensures { option_copied result ≡ best_of table x.now (picked rows.now shelf.now) (option_copied best.entry) }
{
    for row in shelf {
        best = best_with(rows, *row, table, x, best);
    }
    best
}

// The better one of a row and the best so far.
fn best_with<'a>(
    rows: &'a [Slot],
    row: usize,
    table: u8,
    x: &Tagged,
    best: Option<&'a Slot>,
) -> Option<&'a Slot>
    ensures { option_copied result ≡ best_of table x.now (picked rows.now (row ∷ [])) (option_copied best.entry) }
{
    match rows.get(row) {
        Some(slot) => preferred(table, x, slot, best),
        None => best,
    }
}
