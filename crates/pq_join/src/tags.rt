//! The classes of words that are observed, and the tags of their packets.
ghost use Rattle.std.specs.Prelude.{◌≡◌, ◌<◌, ◌≤◌, suc, length};
ghost use Rattle.pq_join.specs.Tags.{captures_at, next_class};

use pq_min::Classes;

/// The class after one more letter, of those that the classes are over; the class itself after any other number.
pub(crate) fn next_class(classes: &Classes, letters: u64, class: u64, letter: u64) -> u64
    requires class { class < length classes.now.rows }
    requires letters { letters ≡ classes.now.letters }
    ensures next { result ≡ next_class classes.now class letter }
    ensures within { result < length classes.now.rows }
{
    if letter < letters {
        return classes.next(class, letter);
    }
    class
}

/// The tag of a class of at most 4,094.
pub(crate) fn tag_of(class: u64) -> u16
    requires { class < 4094 }
    ensures { result ≡ suc class }
{
    (class + 1) as u16
}

/// Whether an instance holds the words of the class.
pub(crate) fn captures(classes: &Classes, class: u64) -> bool
    requires { class < length classes.now.rows }
    ensures { result ≡ captures_at classes.now class }
{
    !classes.accepted(class).is_empty()
}
