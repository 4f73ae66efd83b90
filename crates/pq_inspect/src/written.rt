//! JSON text that is appended piece by piece, with one small value in memory at a time.
ghost use Rattle.std.specs.Prelude.{◌≡◌, ◌++◌, nat_lt, OnOk};
ghost use Rattle.serde_json.specs.Written.{comma_if, compact_text};
ghost use Rattle.pq_inspect.specs.Inspection.{list};

use crate::shown::Shown;
use std::alloc::{AllocError, Global};

/// Appends the text of a value.
pub fn write_shown<T: Shown>(alloc: Global, value: &T, into: &mut Vec<u8>) -> Result<(), AllocError>
    ensures { OnOk result
        (into.new.items ≡ into.old.items ++ compact_text (T.Shown.shown_as value.now)) }
{
    let text = value.shown(alloc)?.to_vec(alloc)?;
    into.extend_from_slice(&text)
}

/// Appends the comma that stands before the element of a list at this index, unless it is the first.
pub fn separate(index: usize, into: &mut Vec<u8>) -> Result<(), AllocError>
    ensures { OnOk result (into.new.items ≡ into.old.items ++ comma_if (nat_lt 0 index)) }
{
    if 0 < index {
        into.push(b',')?;
    }
    Ok(())
}

/// Appends the text of a list of values.
pub fn write_list<T: Shown>(
    alloc: Global,
    values: &[T],
    into: &mut Vec<u8>,
) -> Result<(), AllocError>
    ensures { OnOk result
        (into.new.items ≡ into.old.items ++ compact_text (list T.Shown.shown_as values.now)) }
{
    into.push(b'[')?;
    for index in 0..values.len() {
        separate(index, into)?;
        write_shown(alloc, &values[index], into)?;
    }
    into.push(b']')?;
    Ok(())
}
