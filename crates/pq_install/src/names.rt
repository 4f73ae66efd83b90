ghost use Rattle.std.specs.Prelude.{◌≡◌, ◌++◌, length, OnOk};
ghost use Rattle.std.specs.List.{flat_map};
ghost use Rattle.std.specs.Int.{w16, to_be_bytes};
ghost use Rattle.pq_model.specs.Install.{name_bytes};

use pq_oxm::write_length;
use pq_term::Name;
use std::alloc::AllocError;

// A name: one byte for its length, and its bytes.
fn write_name(name: &Name, into: &mut Vec<u8>) -> Result<(), AllocError>
    ensures { OnOk result (into.new.items ≡ into.old.items ++ name_bytes name.now) }
{
    let bytes = name.bytes();
    into.push(bytes.len() as u8)?;
    into.extend_from_slice(bytes)
}

/// Appends the count of the names and the names.
pub fn write_names(names: &[Name], into: &mut Vec<u8>) -> Result<(), AllocError>
    ensures { OnOk result (into.new.items
        ≡ into.old.items ++ to_be_bytes w16 (length names.now) ++ flat_map name_bytes names.now) }
{
    write_length(names.len(), into)?;
    for name in names {
        write_name(name, into)?;
    }
    Ok(())
}
