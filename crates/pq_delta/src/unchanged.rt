//! Lists of messages that add the same, of which nothing changes.
ghost use Rattle.std.specs.Prelude.{◌≡◌, true};
ghost use Rattle.pq_delta.specs.Added.{entries_added, entry_added, group_added, groups_added};

use crate::added::{added_entry, added_group};
use crate::equal::same_entry;
use crate::group_changes::same_buckets;
use pq_model::Message;

/// Whether two messages add the same entry, or none.
fn add_same_entry(one: &Message, other: &Message) -> bool
    ensures { result ≡ true → entry_added one.now ≡ entry_added other.now }
{
    match (added_entry(one), added_entry(other)) {
        (None, None) => true,
        (Some(one), Some(other)) => same_entry(one, other),
        _ => false,
    }
}

/// Whether two messages add the same group, or none.
fn add_same_group(one: &Message, other: &Message) -> bool
    ensures { result ≡ true → group_added one.now ≡ group_added other.now }
{
    match (added_group(one), added_group(other)) {
        (None, None) => true,
        (Some(one), Some(other)) => same_buckets(&one.buckets, &other.buckets),
        _ => false,
    }
}

/// Whether two lists of messages add the same, message by message.
pub(crate) fn all_add_same(old: &[Message], new: &[Message]) -> bool
    ensures entries { result ≡ true → entries_added old.now ≡ entries_added new.now }
    ensures groups { result ≡ true → groups_added old.now ≡ groups_added new.now }
{
    if old.len() != new.len() {
        return false;
    }
    for place in 0..old.len() {
        let (one, other) = (&old[place], &new[place]);
        if !add_same_entry(one, other) || !add_same_group(one, other) {
            return false;
        }
    }
    true
}
