ghost use Rattle.std.specs.Prelude.{◌≡◌, ◌<◌, ◌++◌, OnOk};
ghost use Rattle.std.specs.Int.{w16, w32, w128, to_be_bytes};
ghost use Rattle.pq_model.specs.Spelling.{
  byte,
  mac_bytes,
  ones128,
  ones32,
  stated,
  stated_masked,
};

use crate::oxm::{write_masked_oxm, write_oxm};
use std::alloc::AllocError;

/// Appends a field of one byte, where it is stated.
pub fn write_byte(field: u8, value: Option<u8>, into: &mut Vec<u8>) -> Result<(), AllocError>
    requires { field < 128 }
    ensures { OnOk result (into.new.items ≡ into.old.items ++ stated field byte value) }
{
    match value {
        None => Ok(()),
        Some(number) => write_oxm(field, &[number], into),
    }
}

/// Appends a field of two bytes, where it is stated.
pub fn write_u16(field: u8, value: Option<u16>, into: &mut Vec<u8>) -> Result<(), AllocError>
    requires { field < 128 }
    ensures { OnOk result (into.new.items ≡ into.old.items ++ stated field (to_be_bytes w16) value) }
{
    match value {
        None => Ok(()),
        Some(number) => write_oxm(field, &number.to_be_bytes(), into),
    }
}

/// Appends a field of four bytes, where it is stated.
pub fn write_u32(field: u8, value: Option<u32>, into: &mut Vec<u8>) -> Result<(), AllocError>
    requires { field < 128 }
    ensures { OnOk result (into.new.items ≡ into.old.items ++ stated field (to_be_bytes w32) value) }
{
    match value {
        None => Ok(()),
        Some(number) => write_oxm(field, &number.to_be_bytes(), into),
    }
}

/// Appends a MAC address, of which the low six bytes are taken, where it is stated.
pub fn write_mac(field: u8, value: Option<u64>, into: &mut Vec<u8>) -> Result<(), AllocError>
    requires { field < 128 }
    ensures { OnOk result (into.new.items ≡ into.old.items ++ stated field mac_bytes value) }
{
    match value {
        None => Ok(()),
        Some(number) => write_oxm(field, &number.to_be_bytes()[2..], into),
    }
}

/// Appends an IPv4 address with its mask, where it is stated; the mask of all ones is left out.
pub fn write_ipv4(
    field: u8,
    value: Option<(u32, u32)>,
    into: &mut Vec<u8>,
) -> Result<(), AllocError>
    requires { field < 127 }
    ensures { OnOk result
        (into.new.items ≡ into.old.items ++ stated_masked field (to_be_bytes w32) ones32 value) }
{
    match value {
        None => Ok(()),
        Some((address, u32::MAX)) => write_oxm(field, &address.to_be_bytes(), into),
        Some((address, mask)) => {
            write_masked_oxm(field, &address.to_be_bytes(), &mask.to_be_bytes(), into)
        }
    }
}

/// Appends an IPv6 address with its mask, where it is stated; the mask of all ones is left out.
pub fn write_ipv6(
    field: u8,
    value: Option<(u128, u128)>,
    into: &mut Vec<u8>,
) -> Result<(), AllocError>
    requires { field < 127 }
    ensures { OnOk result
        (into.new.items ≡ into.old.items ++ stated_masked field (to_be_bytes w128) ones128 value) }
{
    match value {
        None => Ok(()),
        Some((address, u128::MAX)) => write_oxm(field, &address.to_be_bytes(), into),
        Some((address, mask)) => {
            write_masked_oxm(field, &address.to_be_bytes(), &mask.to_be_bytes(), into)
        }
    }
}
