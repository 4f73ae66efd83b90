ghost use Rattle.std.specs.Prelude.{◌≡◌, ◌+◌, ◌<◌, ◌++◌, length, take, vec_len, OnErr, OnOk};
ghost use Rattle.pq_model.specs.Spelling.{oxm, oxm_masked};

use std::alloc::AllocError;

/// Appends an OXM field of class `OPENFLOW_BASIC` without a mask: a header of four bytes and the
/// value, of at most 255 bytes (OpenFlow 1.3.5, section 7.2.3.2). `field` is a number of 7 bits.
/// Where there is no memory for it, `into` still begins with what it had.
pub fn write_oxm(field: u8, value: &[u8], into: &mut Vec<u8>) -> Result<(), AllocError>
    requires field { field < 128 }
    requires short { length value.now < 256 }
    ensures ok { OnOk result (into.new.items ≡ into.old.items ++ oxm field value.now) }
    ensures err { OnErr result (take (vec_len into.old) into.new.items ≡ into.old.items) }
{
    into.extend_from_slice(&[0x80, 0, field * 2, value.len() as u8])?;
    into.extend_from_slice(value)
}

/// Appends an OXM field of class `OPENFLOW_BASIC` with a mask, which is after the value.
pub fn write_masked_oxm(
    field: u8,
    value: &[u8],
    mask: &[u8],
    into: &mut Vec<u8>,
) -> Result<(), AllocError>
    requires field { field < 127 }
    requires short { length value.now + length mask.now < 256 }
    ensures { OnOk result
        (into.new.items ≡ into.old.items ++ oxm_masked field value.now mask.now) }
{
    let length = value.len() + mask.len();
    into.extend_from_slice(&[0x80, 0, field * 2 + 1, length as u8])?;
    into.extend_from_slice(value)?;
    into.extend_from_slice(mask)
}
