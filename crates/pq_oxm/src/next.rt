ghost use Rattle.std.specs.Prelude.{◌≡◌, ◌<◌, ◌≤◌};
ghost use Rattle.std.specs.Int.{w16, w32, w128, from_be_bytes};
ghost use Rattle.pq_model.specs.Spelling.{ones128, ones32};
ghost use Rattle.pq_oxm.specs.Reading.{
  address_field,
  byte_number,
  is_field,
  mac_number,
  number_field,
};

use crate::bytes::{mac_of, u16_of, u32_of, u128_of};

// Whether an OXM field of class `OPENFLOW_BASIC` with this third byte, which names it and tells of a
// mask, is at the front with a payload of this many bytes (OpenFlow 1.3.5, section 7.2.3.2).
fn is_field(code: u8, size: usize, bytes: &[u8]) -> bool
    requires { size ≤ 32 }
    ensures { result ≡ is_field code size bytes.now }
{
    bytes.len() >= 4 + size && bytes[2] == code
}

/// The number of a field of one byte that is at the front, and what is after it.
#[tactic(auto, unfolding(crate::specs::Reading::number_field))]
pub fn next_byte(field: u8, bytes: &[u8]) -> (Option<u8>, &[u8])
    requires { field < 128 }
    ensures { (result.0, result.1.now) ≡ number_field field 1 byte_number bytes.now }
{
    if is_field(field * 2, 1, bytes) {
        let value = &bytes[4..5];
        (Some(value[0]), &bytes[5..])
    } else {
        (None, bytes)
    }
}

/// The number of a field of two bytes that is at the front, and what is after it.
#[tactic(auto, unfolding(crate::specs::Reading::number_field))]
pub fn next_u16(field: u8, bytes: &[u8]) -> (Option<u16>, &[u8])
    requires { field < 128 }
    ensures { (result.0, result.1.now) ≡ number_field field 2 (from_be_bytes w16) bytes.now }
{
    if is_field(field * 2, 2, bytes) {
        (Some(u16_of(&bytes[4..6])), &bytes[6..])
    } else {
        (None, bytes)
    }
}

/// The number of a field of four bytes that is at the front, and what is after it.
#[tactic(auto, unfolding(crate::specs::Reading::number_field))]
pub fn next_u32(field: u8, bytes: &[u8]) -> (Option<u32>, &[u8])
    requires { field < 128 }
    ensures { (result.0, result.1.now) ≡ number_field field 4 (from_be_bytes w32) bytes.now }
{
    if is_field(field * 2, 4, bytes) {
        (Some(u32_of(&bytes[4..8])), &bytes[8..])
    } else {
        (None, bytes)
    }
}

/// The MAC address of a field that is at the front, and what is after it.
#[tactic(auto, unfolding(crate::specs::Reading::number_field))]
pub fn next_mac(field: u8, bytes: &[u8]) -> (Option<u64>, &[u8])
    requires { field < 128 }
    ensures { (result.0, result.1.now) ≡ number_field field 6 mac_number bytes.now }
{
    if is_field(field * 2, 6, bytes) {
        (Some(mac_of(&bytes[4..10])), &bytes[10..])
    } else {
        (None, bytes)
    }
}

/// The IPv4 address of a field that is at the front with its mask, which is all ones where none
/// is there, and what is after it.
#[tactic(auto, unfolding(crate::specs::Reading::address_field))]
pub fn next_ipv4(field: u8, bytes: &[u8]) -> (Option<(u32, u32)>, &[u8])
    requires { field < 127 }
    ensures { (result.0, result.1.now) ≡ address_field field 4 (from_be_bytes w32) ones32 bytes.now }
{
    if is_field(field * 2, 4, bytes) {
        (Some((u32_of(&bytes[4..8]), u32::MAX)), &bytes[8..])
    } else if is_field(field * 2 + 1, 8, bytes) {
        let address = u32_of(&bytes[4..8]);
        let mask = u32_of(&bytes[8..12]);
        (Some((address, mask)), &bytes[12..])
    } else {
        (None, bytes)
    }
}

/// The IPv6 address of a field that is at the front with its mask, which is all ones where none
/// is there, and what is after it.
#[tactic(auto, unfolding(crate::specs::Reading::address_field))]
pub fn next_ipv6(field: u8, bytes: &[u8]) -> (Option<(u128, u128)>, &[u8])
    requires { field < 127 }
    ensures { (result.0, result.1.now) ≡ address_field field 16 (from_be_bytes w128) ones128 bytes.now }
{
    if is_field(field * 2, 16, bytes) {
        (Some((u128_of(&bytes[4..20]), u128::MAX)), &bytes[20..])
    } else if is_field(field * 2 + 1, 32, bytes) {
        let address = u128_of(&bytes[4..20]);
        let mask = u128_of(&bytes[20..36]);
        (Some((address, mask)), &bytes[36..])
    } else {
        (None, bytes)
    }
}
