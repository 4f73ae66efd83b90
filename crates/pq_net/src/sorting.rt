ghost use Rattle.std.specs.Prelude.{◌≡◌, OnOk};
ghost use Rattle.std.specs.Cmp.Lexicographic.{slice_cmp};
ghost use Rattle.std.specs.Ordering.{nat_cmp};
ghost use Rattle.pq_model.specs.Buckets.{entry_numbers};
ghost use Rattle.pq_model.specs.Sorting.{sort_by};

use crate::entry::Entry;
use pq_fields::packets_are_ordered_by_numbers;
use std::alloc::AllocError;
use std::cmp::Ordering;

/// Sorts entries by instance and then by packet. It fails only where there is no memory for sorting.
pub(crate) fn sort(entries: &mut Vec<Entry>) -> Result<(), AllocError>
    ensures { OnOk result (entries.new.items ≡ sort_by entry_numbers entries.old.items) }
{
    entries.sort_by(
        |x: &Entry, y: &Entry| -> Ordering
            ensures { result ≡ slice_cmp nat_cmp (entry_numbers x.now) (entry_numbers y.now) }
        { compare(x, y) },
    )
}

// By query, by label, a label before each that it begins, and by packet.
fn compare(x: &Entry, y: &Entry) -> Ordering
    ensures { result ≡ slice_cmp nat_cmp (entry_numbers x.now) (entry_numbers y.now) }
{
    packets_are_ordered_by_numbers();
    x.pair
        .query
        .cmp(&y.pair.query)
        .then(x.pair.label.values().cmp(y.pair.label.values()))
        .then(x.packet.cmp(&y.packet))
}
