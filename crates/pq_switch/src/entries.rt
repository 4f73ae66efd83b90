ghost use Rattle.std.specs.Prelude.{◌≡◌, ◌&&◌, [], ◌∷◌, ◌++◌, All, IfOk, OnOk, OnErr, not};
ghost use Rattle.std.specs.BTreeMap.{get_by, insert_entry};
ghost use Rattle.std.specs.List.{filter, list_any};
ghost use Rattle.std.specs.List.Sorted.{IsStrictlySortedBy};
ghost use Rattle.std.specs.Map.{keys_of, values_of};
ghost use Rattle.std.specs.Option.{option_copied};
ghost use Rattle.std.specs.Ordering.{is_eq};
ghost use Rattle.pq_model.specs.Lawful.{IsLawfulAction};
ghost use Rattle.pq_model.specs.SwitchMachine.{entry_of, groups_named, is_placed, is_removed, taken};
ghost use Rattle.pq_model.specs.declared.reserved.TheConstants.{ALL_GROUPS};
ghost use Rattle.pq_switch.specs.Namings.{AreIndexed, is_naming, names};
ghost use Rattle.pq_switch.specs.Places.{place_cmp};

use crate::entry::{Entry, Slot};
use crate::groups::Groups;
use crate::lookup::{best_in_table, entry_in};
use crate::naming::{Naming, first_place, names_group, note};
use crate::place::Place;
use crate::shelves::Shelved;
use pq_model::{ALL_GROUPS, FlowMod, Tagged};
use std::alloc::{AllocError, Global};
use std::collections::{BTreeMap, BTreeSet};
use std::marker::Model;

/// The entries of a switch, seen in the order in which they were added.
///
/// They are kept by their places, so that an Add finds the entry of its place, and a packet finds the entries that cover
/// it among those of each shape by one search. An index leads from a group to the entries that name it.
#[derive(Drop)]
pub(crate) struct Entries {
    slots: BTreeMap<Place, Slot>,
    // Above the number of each slot.
    next: u64,
    // Each group that an entry names, with the place of the entry. It may have more: an entry that was replaced may have
    // named other groups.
    index: BTreeSet<Naming>,
}

/// The most entries of one shape that are compared one by one.
const LARGE: u32 = 256;

impl Model for Entries {
    ghost use Rattle.std.specs.Prelude.{List};
    ghost use Rattle.std.specs.Map.{values_of};
    ghost use Rattle.pq_model.specs.SwitchMachine.{Entry as EntryValue};

    ghost Value = { List EntryValue };

    ghost use Rattle.pq_switch.specs.Added.{AreKept, entries_of, in_turn};
    ghost use Rattle.pq_switch.specs.Namings.{AreIndexed};

    ghost view = { λ e. entries_of (in_turn (values_of e.slots.entries)) };

    ghost invariant = { λ e. AreKept e.next e.slots.entries × AreIndexed e.index.keys e.slots.entries };
}

impl Entries {
    pub(crate) fn empty(alloc: Global) -> Entries
        ensures { result ≡ [] }
    {
        Entries {
            slots: BTreeMap::new(alloc),
            next: 0,
            index: BTreeSet::new(alloc),
        }
    }

    /// The covering entry of highest priority in a table; of several, the one added first.
    pub(crate) fn taken(&self, table: u8, x: &Tagged) -> Option<&Entry>
        ensures { option_copied result ≡ taken self.now table x.now }
    {
        entry_in(best_in_table(&self.slots, table, x))
    }

    /// Puts an entry last, in place of the one with its table, match and priority.
    pub(crate) fn add(&mut self, alloc: Global, flow: &FlowMod) -> Result<(), AllocError>
        requires { All IsLawfulAction flow.now.actions }
        ensures ok { OnOk result (self.new ≡ filter (λ e. not (is_placed flow.now e)) self.old ++ entry_of flow.now ∷ []) }
        ensures err { OnErr result (self.new ≡ self.old) }
    {
        // The last number is never given: running out of memory is the answer that needs no cause.
        if self.next == u64::MAX {
            return Err(AllocError);
        }
        let place = Place::of(flow.table, &flow.matching, flow.priority);
        let entry = Entry::of(alloc, flow)?;
        let sequence = self.next;
        let slot = Slot { sequence, entry };
        put_in(&mut self.slots, &mut self.index, place, slot)?;
        self.next += 1;
        Ok(())
    }

    /// Takes out the entry with this table, match and priority.
    pub(crate) fn remove(&mut self, flow: &FlowMod)
        ensures { self.new ≡ filter (λ e. not (is_placed flow.now e)) self.old }
    {
        let place = Place::of(flow.table, &flow.matching, flow.priority);
        self.slots.remove(&place);
    }

    pub(crate) fn clear(&mut self)
        ensures { self.new ≡ [] }
    {
        self.slots.clear();
        self.index.clear();
    }

    /// Takes out each entry that names a group that is removed. No other entry is looked at.
    pub(crate) fn remove_naming(&mut self, groups: &Groups, number: u32)
        ensures { self.new ≡ filter (λ e. not (list_any (is_removed groups.now number) (groups_named e.actions))) self.old }
    {
        if number == ALL_GROUPS {
            take_naming_any(&mut self.slots, &mut self.index, groups);
        } else if groups.contains(number) {
            take_naming(&mut self.slots, &mut self.index, number);
        }
    }

    /// Whether many entries of a block have one shape.
    pub(crate) fn has_large_shape(&self) -> bool {
        has_large_shape(&self.slots)
    }

    /// The same entries on shelves.
    pub(crate) fn shelved(self, alloc: Global) -> Result<Shelved, AllocError>
        ensures { IfOk result (λ shelved. shelved ≡ self) }
    {
        let Entries {
            slots,
            next: _,
            index: _,
        } = self;
        let rows = rows_of(alloc, slots)?;
        Shelved::of(alloc, rows)
    }
}

// Puts an entry at its place, after what it names is noted.
fn put_in(
    slots: &mut BTreeMap<Place, Slot>,
    index: &mut BTreeSet<Naming>,
    place: Place,
    slot: Slot,
) -> Result<(), AllocError>
    requires { AreIndexed index.old.keys slots.old.entries }
    ensures ok { OnOk result (slots.new.entries ≡ insert_entry place_cmp slots.old.entries place slot) }
    ensures err { OnErr result (slots.new.entries ≡ slots.old.entries) }
    ensures indexed { AreIndexed index.new.keys slots.new.entries }
{
    note(index, place, slot.entry.actions.as_slice())?;
    slots.insert(place, slot)?;
    Ok(())
}

// Takes out each entry that names a group that is there.
fn take_naming_any(slots: &mut BTreeMap<Place, Slot>, index: &mut BTreeSet<Naming>, groups: &Groups)
    requires { AreIndexed index.old.keys slots.old.entries }
    ensures rows { slots.new.entries ≡ filter (λ r. not (list_any (is_removed groups.now ALL_GROUPS) (groups_named r.1.entry.actions))) slots.old.entries }
    ensures indexed { AreIndexed index.new.keys slots.new.entries }
{
    for group in groups.numbers() {
        take_naming(slots, index, *group);
    }
}

// Takes out each entry that names the group.
fn take_naming(slots: &mut BTreeMap<Place, Slot>, index: &mut BTreeSet<Naming>, group: u32)
    requires { AreIndexed index.old.keys slots.old.entries }
    ensures rows { slots.new.entries ≡ filter (λ r. not (names group r.1.entry.actions)) slots.old.entries }
    ensures indexed { AreIndexed index.new.keys slots.new.entries }
{
    'places: loop {
        let Some(place) = first_place(index, group) else {
            return;
        };
        take_if_naming(slots, place, group);
        index.remove(&Naming { group, place });
    }
}

// Takes out the entry at a place, if it names the group.
fn take_if_naming(slots: &mut BTreeMap<Place, Slot>, place: Place, group: u32)
    requires { IsStrictlySortedBy place_cmp (keys_of slots.old.entries) }
    ensures rows { slots.new.entries ≡ filter (λ r. not (names group r.1.entry.actions && is_eq (place_cmp place r.0))) slots.old.entries }
    ensures ordered { IsStrictlySortedBy place_cmp (keys_of slots.new.entries) }
{
    if !is_naming(slots, &place, group) {
        return;
    }
    slots.remove(&place);
}

// Whether the entry at a place names the group.
fn is_naming(slots: &BTreeMap<Place, Slot>, place: &Place, group: u32) -> bool
    ensures { result ≡ is_naming group (get_by (place_cmp place.now) slots.now) }
{
    match slots.get(place) {
        Some(slot) => names_group(group, slot.entry.actions.as_slice()),
        None => false,
    }
}

// Whether more than 256 entries that are together are of one block and one shape.
fn has_large_shape(slots: &BTreeMap<Place, Slot>) -> bool {
    let mut count = 0u32;
    let mut last = None;
    for place in slots.keys() {
        count = count_with(last, place, count);
        if count > LARGE {
            return true;
        }
        last = Some(place);
    }
    false
}

// How many of a shape are together up to a place, where this many do up to the one before.
fn count_with(last: Option<&Place>, place: &Place, count: u32) -> u32 {
    match last {
        Some(other) if other.block == place.block && other.shape == place.shape => {
            count.saturating_add(1)
        }
        _ => 1,
    }
}

// The slots in the order of their places.
fn rows_of(alloc: Global, slots: BTreeMap<Place, Slot>) -> Result<Vec<Slot>, AllocError>
    ensures { IfOk result (λ rows. rows.items ≡ values_of slots.entries) }
{
    let mut rows = Vec::with_capacity(alloc, slots.len())?;
    for slot in slots.into_values() {
        rows.push(slot)?;
    }
    Ok(rows)
}
