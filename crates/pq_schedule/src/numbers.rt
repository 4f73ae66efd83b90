//! Numbers and addresses, as a printed packet has them.
ghost use Rattle.std.specs.Prelude.{◌≡◌, ◌++◌, ◌∷◌, ◌<◌, ◌/◌, ◌%◌, ◌^◌, [], false, codes, decimal, OnOk};
ghost use Rattle.std.specs.Fmt.{digit_glyph, digits};
ghost use Rattle.std.specs.List.{join_by};
ghost use Rattle.pq_schedule.specs.Values.{text_in, two_digits};
ghost use Rattle.pq_schedule.specs.Values.Form.{Ipv4, Ipv6, Mac};

use std::alloc::AllocError;

/// Appends a number in decimal digits.
pub(crate) fn write_decimal(n: u64, into: &mut Vec<u8>) -> Result<(), AllocError>
    ensures { OnOk result (into.new.items ≡ into.old.items ++ decimal n) }
{
    let digits = n.to_string(*into.allocator())?;
    into.extend_from_slice(digits.as_bytes())
}

/// Appends numbers in decimal digits, with a separator between each two.
pub(crate) fn write_decimals(
    separator: u8,
    numbers: &[u64],
    into: &mut Vec<u8>,
) -> Result<(), AllocError>
    ensures { OnOk result (into.new.items
        ≡ into.old.items ++ join_by decimal (separator ∷ []) numbers.now) }
{
    let [first, rest @ ..] = numbers else {
        return Ok(());
    };
    write_decimal(*first, into)?;
    for number in rest {
        into.push(separator)?;
        write_decimal(*number, into)?;
    }
    Ok(())
}

/// A lower-case hexadecimal digit.
fn glyph(digit: u8) -> u8
    requires { digit < 16 }
    ensures { result ≡ digit_glyph false digit }
{
    if digit < 10 {
        b'0' + digit
    } else {
        b'a' - 10 + digit
    }
}

/// Appends two hexadecimal digits.
fn write_two_digits(byte: u8, into: &mut Vec<u8>) -> Result<(), AllocError>
    ensures { OnOk result (into.new.items ≡ into.old.items ++ two_digits byte) }
{
    into.extend_from_slice(&[glyph(byte / 16), glyph(byte % 16)])
}

/// Appends two hexadecimal digits for each byte, joined by `:`.
fn write_pairs(bytes: &[u8], into: &mut Vec<u8>) -> Result<(), AllocError>
    ensures { OnOk result (into.new.items
        ≡ into.old.items ++ join_by two_digits (codes ":") bytes.now) }
{
    let [first, rest @ ..] = bytes else {
        return Ok(());
    };
    write_two_digits(*first, into)?;
    for byte in rest {
        into.push(b':')?;
        write_two_digits(*byte, into)?;
    }
    Ok(())
}

/// Appends hexadecimal digits without leading zeros.
fn write_hexadecimal(n: u16, into: &mut Vec<u8>) -> Result<(), AllocError>
    ensures { OnOk result (into.new.items ≡ into.old.items ++ digits 16 false n) }
{
    let digits = format!(in *into.allocator(); "{n:x}")?;
    into.extend_from_slice(digits.as_bytes())
}

/// Appends hexadecimal digits without leading zeros for each segment, joined by `:`.
fn write_segments(segments: &[u16], into: &mut Vec<u8>) -> Result<(), AllocError>
    ensures { OnOk result (into.new.items
        ≡ into.old.items ++ join_by (digits 16 false) (codes ":") segments.now) }
{
    let [first, rest @ ..] = segments else {
        return Ok(());
    };
    write_hexadecimal(*first, into)?;
    for segment in rest {
        into.push(b':')?;
        write_hexadecimal(*segment, into)?;
    }
    Ok(())
}

/// The eight bits of a number at a place, counted from the lowest bit.
fn byte_at(place: u32, n: u64) -> u8
    requires { place < 64 }
    ensures { result ≡ n / 2 ^ place % 2 ^ 8 }
{
    ((n >> place) % 256) as u8
}

/// The sixteen bits of a number at a place, counted from the lowest bit.
fn segment_at(place: u32, n: u128) -> u16
    requires { place < 128 }
    ensures { result ≡ n / 2 ^ place % 2 ^ 16 }
{
    ((n >> place) % 65_536) as u16
}

/// Appends a MAC address, the low 48 bits of a number: six groups of two lower-case hexadecimal digits joined by
/// `:`.
pub(crate) fn write_mac(n: u64, into: &mut Vec<u8>) -> Result<(), AllocError>
    ensures { OnOk result (into.new.items ≡ into.old.items ++ text_in Mac n) }
{
    let bytes = [
        byte_at(40, n),
        byte_at(32, n),
        byte_at(24, n),
        byte_at(16, n),
        byte_at(8, n),
        byte_at(0, n),
    ];
    write_pairs(&bytes, into)
}

/// Appends an IPv4 address, the low 32 bits of a number: four decimal numbers joined by `.`.
pub(crate) fn write_ipv4(n: u64, into: &mut Vec<u8>) -> Result<(), AllocError>
    ensures { OnOk result (into.new.items ≡ into.old.items ++ text_in Ipv4 n) }
{
    let bytes = [
        u64::from(byte_at(24, n)),
        u64::from(byte_at(16, n)),
        u64::from(byte_at(8, n)),
        u64::from(byte_at(0, n)),
    ];
    write_decimals(b'.', &bytes, into)
}

/// Appends an IPv6 address: eight groups of lower-case hexadecimal digits without leading zeros, joined by `:`.
pub(crate) fn write_ipv6(n: u128, into: &mut Vec<u8>) -> Result<(), AllocError>
    ensures { OnOk result (into.new.items ≡ into.old.items ++ text_in Ipv6 n) }
{
    let segments = [
        segment_at(112, n),
        segment_at(96, n),
        segment_at(80, n),
        segment_at(64, n),
        segment_at(48, n),
        segment_at(32, n),
        segment_at(16, n),
        segment_at(0, n),
    ];
    write_segments(&segments, into)
}
