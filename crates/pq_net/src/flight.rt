//! Packets in flight: a vector of which the first ones may have left.
ghost use Rattle.std.specs.Prelude.{◌≡◌, ◌+◌, ◌<◌, ◌≤◌, length, drop};
ghost use Rattle.std.specs.List.{remove};
ghost use Rattle.std.specs.Vec.{vec_capacity};

use pq_model::Tagged;

/// Takes out the packet at a place, counted from the first that has not left, and gives where the first of the others is.
///
/// The first packet costs the same however many are in flight; where another is taken out, those after it are moved.
pub(crate) fn take_out(flight: &mut Vec<Tagged>, first: usize, place: usize) -> usize
    requires { first + place < length flight.old.items }
    ensures left { drop result flight.new.items ≡ remove (drop first flight.old.items) place }
    ensures within { result ≤ length flight.new.items }
    ensures fewer { length flight.new.items ≤ length flight.old.items }
    ensures room { vec_capacity flight.new ≡ vec_capacity flight.old }
{
    if place == 0 {
        return without_front(flight, first + 1);
    }
    flight.remove(first + place);
    first
}

/// Gives up what has left, where that is half of the vector, and gives where the first that has not left is.
fn without_front(flight: &mut Vec<Tagged>, first: usize) -> usize
    requires { first ≤ length flight.old.items }
    ensures left { drop result flight.new.items ≡ drop first flight.old.items }
    ensures within { result ≤ length flight.new.items }
    ensures fewer { length flight.new.items ≤ length flight.old.items }
    ensures room { vec_capacity flight.new ≡ vec_capacity flight.old }
{
    let count = flight.len() - first;
    if first < count {
        return first;
    }
    flight.rotate_left(first);
    flight.truncate(count);
    0
}
