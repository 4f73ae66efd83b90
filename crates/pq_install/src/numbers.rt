ghost use Rattle.std.specs.Prelude.{◌≡◌, ◌++◌, OnOk};
ghost use Rattle.std.specs.List.{flat_map};
ghost use Rattle.std.specs.Int.{w32, w64, to_be_bytes};

use std::alloc::AllocError;

/// Appends the lower four bytes of a count.
pub fn write_count(count: usize, into: &mut Vec<u8>) -> Result<(), AllocError>
    ensures { OnOk result (into.new.items ≡ into.old.items ++ to_be_bytes w32 count) }
{
    into.extend_from_slice(&count.to_be_bytes()[4..])
}

/// Appends numbers of four bytes.
pub fn write_u32s(numbers: &[u32], into: &mut Vec<u8>) -> Result<(), AllocError>
    ensures { OnOk result (into.new.items ≡ into.old.items ++ flat_map (to_be_bytes w32) numbers.now) }
{
    for number in numbers {
        into.extend_from_slice(&number.to_be_bytes())?;
    }
    Ok(())
}

/// Appends numbers of eight bytes.
pub fn write_u64s(numbers: &[u64], into: &mut Vec<u8>) -> Result<(), AllocError>
    ensures { OnOk result (into.new.items ≡ into.old.items ++ flat_map (to_be_bytes w64) numbers.now) }
{
    for number in numbers {
        into.extend_from_slice(&number.to_be_bytes())?;
    }
    Ok(())
}
