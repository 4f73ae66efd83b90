ghost use Rattle.std.specs.Prelude.{◌≡◌, ℕ};
ghost use Rattle.std.specs.List.{AllByRecursion};
ghost use Rattle.std.specs.List.Sorted.{IsStrictlySortedBy};
ghost use Rattle.std.specs.Map.{keys_of, values_of};
ghost use Rattle.std.specs.Option.{option_copied, option_map};
ghost use Rattle.pq_model.specs.SwitchMachine.{taken};
ghost use Rattle.pq_switch.specs.Added.{AreKept, IsKept, entries_of, in_turn};
ghost use Rattle.pq_switch.specs.Choice.{IsBestWith, best_of, best_of_few, comes_before, counts, is_beaten, preferred};
ghost use Rattle.pq_switch.specs.Places.{block_at, place_cmp};
ghost use Rattle.pq_switch.specs.Ranges.{onward, range_of};

use crate::entry::{Entry, Slot};
use crate::pattern::{Pattern, vlan_word};
use crate::place::{Block, Place};
use pq_model::Tagged;
use std::collections::BTreeMap;

/// The most entries that are compared one by one before a whole shape is passed at once.
const FEW: u8 = 128;

/// The covering entry of highest priority in a table; of several, the one added first.
///
/// Its match states the packet's arriving port or none, and the packet's VLAN word or none.
pub(crate) fn best_in_table<'a>(
    slots: &'a BTreeMap<Place, Slot>,
    table: u8,
    x: &Tagged,
) -> Option<&'a Slot>
    requires { (next : ℕ) × AreKept next slots.now.entries }
    ensures { option_map (λ s. s.entry) (option_copied result) ≡ taken (entries_of (in_turn (values_of slots.now.entries))) table x.now }
{
    let port = Some(x.packet.port);
    let word = Some(vlan_word(x.vlan));
    let best = best_in_block(slots, block(table, port, word), x, None);
    let best = best_in_block(slots, block(table, port, None), x, best);
    let best = best_in_block(slots, block(table, None, word), x, best);
    best_in_block(slots, block(table, None, None), x, best)
}

fn block(table: u8, in_port: Option<u64>, vlan: Option<u64>) -> Block
    ensures { result ≡ block_at table in_port vlan }
{
    Block {
        table,
        in_port,
        vlan,
    }
}

// The best of the covering entries of a block, and the best so far.
//
// The entries are by shape. After a few entries it looks among those of the next shape for the one match that covers
// the packet, and goes on after them (tuple space search; Srinivasan, Suri and Varghese, SIGCOMM 1999).
fn best_in_block<'a>(
    slots: &'a BTreeMap<Place, Slot>,
    block: Block,
    x: &Tagged,
    mut best: Option<&'a Slot>,
) -> Option<&'a Slot>
    requires { (next : ℕ) × AreKept next slots.now.entries }
    ensures { IsBestWith block.table x.now slots.now.entries block (option_copied best.entry) (option_copied result) }
{
    let mut from = Place::first(block);
    'shapes: loop {
        let (found, behind) = best_of_few(slots, from, block, x, best);
        let Some(place) = behind else {
            return found;
        };
        let pattern = place.shape.projected(&x.packet, x.vlan);
        best = best_in(slots, block.table, pattern, x, found);
        from = Place {
            behind: true,
            ..place
        };
    }
}

// The best of a few entries of a block from a place on, and of the best so far; and the place of the next one.
fn best_of_few<'a>(
    slots: &'a BTreeMap<Place, Slot>,
    from: Place,
    block: Block,
    x: &Tagged,
    mut best: Option<&'a Slot>,
) -> (Option<&'a Slot>, Option<Place>)
    ensures value { (option_copied result.0, result.1) ≡ best_of_few 128 block block.table x.now (onward from slots.now.entries) (option_copied best.entry) }
    ensures ordered { IsStrictlySortedBy place_cmp (keys_of slots.now.entries) }
{
    let mut left = FEW;
    for (place, slot) in slots.range(from..) {
        if !place.is_in(block) {
            return (best, None);
        }
        if left == 0 {
            return (best, Some(*place));
        }
        best = preferred(block.table, x, slot, best);
        left -= 1;
    }
    (best, None)
}

// The best of the covering entries of a table whose matches state this pattern, and the best so far.
fn best_in<'a>(
    slots: &'a BTreeMap<Place, Slot>,
    table: u8,
    pattern: Pattern,
    x: &Tagged,
    mut best: Option<&'a Slot>,
) -> Option<&'a Slot>
    requires { (next : ℕ) × AllByRecursion (IsKept next) slots.now.entries }
    ensures { option_copied result ≡ best_of table x.now (range_of table pattern slots.now.entries) (option_copied best.entry) }
{
    let first = Place::at(table, pattern, 0);
    let last = Place::at(table, pattern, 0x1_0001);
    for (_, slot) in slots.range(first..last) {
        // The priorities fall from here on.
        if is_beaten(slot, best) {
            return best;
        }
        best = preferred(table, x, slot, best);
    }
    best
}

/// The entry of what was found.
pub(crate) fn entry_in<'a>(found: Option<&'a Slot>) -> Option<&'a Entry>
    ensures { option_copied result ≡ option_map (λ s. s.entry) (option_copied found.entry) }
{
    match found {
        Some(slot) => Some(&slot.entry),
        None => None,
    }
}

// Whether the best so far has a higher priority than the entry.
fn is_beaten(slot: &Slot, best: Option<&Slot>) -> bool
    ensures { result ≡ is_beaten slot.now (option_copied best.entry) }
{
    match best {
        Some(other) => {
            let entry = &slot.entry;
            let compared = &other.entry;
            entry.priority < compared.priority
        }
        None => false,
    }
}

/// The better one of an entry and the best so far. Most entries are told apart by their priorities alone.
pub(crate) fn preferred<'a>(
    table: u8,
    x: &Tagged,
    slot: &'a Slot,
    best: Option<&'a Slot>,
) -> Option<&'a Slot>
    ensures { option_copied result ≡ preferred table x.now slot.now (option_copied best.entry) }
{
    match best {
        Some(other) if !comes_before(slot, other) => best,
        _ if counts(table, x, slot) => Some(slot),
        _ => best,
    }
}

// Whether the entry is in the table and covers the packet.
fn counts(table: u8, x: &Tagged, slot: &Slot) -> bool
    ensures { result ≡ counts table x.now slot.now }
{
    let entry = &slot.entry;
    entry.table == table && entry.matching.covers(&x.packet, x.vlan)
}

// Whether the first has the higher priority, or the same and was added earlier.
fn comes_before(slot: &Slot, other: &Slot) -> bool
    ensures { result ≡ comes_before slot.now other.now }
{
    let entry = &slot.entry;
    let compared = &other.entry;
    if entry.priority != compared.priority {
        return entry.priority > compared.priority;
    }
    slot.sequence < other.sequence
}
