ghost use Rattle.std.specs.Prelude.{◌≡◌, ◌≤◌, ◌++◌, length, replicate, OnOk, OnErr};
ghost use Rattle.std.specs.Int.{w128, w16, w32, w64, from_be_bytes, to_be_bytes};
ghost use Rattle.pq_model.specs.Spelling.{padding};
ghost use Rattle.pq_oxm.specs.Reading.{mac_number};

use std::alloc::AllocError;

/// How many zeros make a length in bytes a multiple of eight: 0 to 7.
pub fn padding(length: usize) -> usize
    ensures { result ≡ padding length }
{
    (8 - length % 8) % 8
}

/// Appends this many zeros, at most eight; where there is no memory for them `into` is as before.
pub fn write_zeros(count: usize, into: &mut Vec<u8>) -> Result<(), AllocError>
    requires { count ≤ 8 }
    ensures ok { OnOk result (into.new.items ≡ into.old.items ++ replicate count 0) }
    ensures err { OnErr result (into.new.items ≡ into.old.items) }
{
    into.extend_from_slice(&[0; 8][..count])
}

/// Appends the lower two bytes of a length, the higher of them first, as OpenFlow states lengths;
/// where there is no memory for them `into` is as before.
pub fn write_length(length: usize, into: &mut Vec<u8>) -> Result<(), AllocError>
    ensures ok { OnOk result (into.new.items ≡ into.old.items ++ to_be_bytes w16 length) }
    ensures err { OnErr result (into.new.items ≡ into.old.items) }
{
    into.extend_from_slice(&length.to_be_bytes()[6..])
}

/// The number that two bytes spell.
pub fn u16_of(bytes: &[u8]) -> u16
    requires { length bytes.now ≡ 2 }
    ensures { result ≡ from_be_bytes w16 bytes.now }
{
    u16::from_be_bytes([bytes[0], bytes[1]])
}

/// The number that four bytes spell.
pub fn u32_of(bytes: &[u8]) -> u32
    requires { length bytes.now ≡ 4 }
    ensures { result ≡ from_be_bytes w32 bytes.now }
{
    u32::from_be_bytes([bytes[0], bytes[1], bytes[2], bytes[3]])
}

/// The number that eight bytes spell.
pub fn u64_of(bytes: &[u8]) -> u64
    requires { length bytes.now ≡ 8 }
    ensures { result ≡ from_be_bytes w64 bytes.now }
{
    u64::from_be_bytes([
        bytes[0], bytes[1], bytes[2], bytes[3], bytes[4], bytes[5], bytes[6], bytes[7],
    ])
}

/// The MAC address that six bytes spell.
pub fn mac_of(bytes: &[u8]) -> u64
    requires { length bytes.now ≡ 6 }
    ensures { result ≡ mac_number bytes.now }
{
    u64::from_be_bytes([
        0, 0, bytes[0], bytes[1], bytes[2], bytes[3], bytes[4], bytes[5],
    ])
}

/// The number that sixteen bytes spell.
pub fn u128_of(bytes: &[u8]) -> u128
    requires { length bytes.now ≡ 16 }
    ensures { result ≡ from_be_bytes w128 bytes.now }
{
    u128::from_be_bytes([
        bytes[0], bytes[1], bytes[2], bytes[3], bytes[4], bytes[5], bytes[6], bytes[7], bytes[8],
        bytes[9], bytes[10], bytes[11], bytes[12], bytes[13], bytes[14], bytes[15],
    ])
}
