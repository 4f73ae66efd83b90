//! The slots of parts, by their places.
ghost use Rattle.std.specs.Prelude.{◌≡◌, ◌≤◌, length, map, IfOk};
ghost use Rattle.std.specs.List.{range_with_len};
ghost use Rattle.pq_sum.specs.Places.{IsSlotFor, renamed};

use std::alloc::{AllocError, Global};

/// The first slots, in their order.
pub(crate) fn first_slots(alloc: Global, count: usize) -> Result<Vec<usize>, AllocError>
    ensures { IfOk result (λ slots. slots.items ≡ range_with_len 0 count) }
{
    let mut slots = Vec::new(alloc);
    for slot in 0..count {
        slots.push(slot)?;
    }
    Ok(slots)
}

/// The slot of a place, which is the next one where there is no such place yet.
pub(crate) fn slot_for(slots: &mut Vec<usize>, place: usize) -> Result<usize, AllocError>
    requires { place ≤ length slots.old.items }
    ensures { IfOk result (IsSlotFor slots.old.items place slots.new.items) }
{
    if place < slots.len() {
        return Ok(slots[place]);
    }
    slots.push(place)?;
    Ok(place)
}

/// Renames the last slot, whose part moves into another one.
pub(crate) fn rename(slots: &mut [usize], last: usize, slot: usize)
    ensures { slots.new ≡ map (renamed last slot) slots.old }
{
    for each in slots.iter_mut() {
        *each = renamed(last, slot, *each);
    }
}

/// What a slot is called then.
fn renamed(last: usize, slot: usize, each: usize) -> usize
    ensures { result ≡ renamed last slot each }
{
    if each == last { slot } else { each }
}
