ghost use Rattle.std.specs.Prelude.{◌≡◌, ◌<◌, ◌++◌, [], ◌∷◌, OnOk};
ghost use Rattle.std.specs.Char.{digit_char};
ghost use Rattle.json.specs.Print.{escape, escape_byte, quoted};
ghost use Rattle.pq_inspect.specs.Inspection.{hexadecimal, hexadecimal_byte};

use std::alloc::AllocError;

// The lower-case digit of a number below 16, which a string has as it is.
#[tactic(auto, using(crate::proofs::Digits::decimal_plain, crate::proofs::Digits::letter_plain))]
fn digit(number: u8) -> u8
    requires { number < 16 }
    ensures value { result ≡ digit_char number }
    ensures plain { escape_byte result ≡ result ∷ [] }
{
    if number < 10 {
        b'0' + number
    } else {
        b'a' + (number - 10)
    }
}

// Appends the two digits of a byte.
fn write_byte(byte: u8, into: &mut Vec<u8>) -> Result<(), AllocError>
    ensures { OnOk result (into.new.items ≡ into.old.items ++ escape (hexadecimal_byte byte)) }
{
    into.push(digit(byte / 16))?;
    into.push(digit(byte % 16))?;
    Ok(())
}

/// Appends a string of the bytes, each as two lower-case hexadecimal digits. It fails only where there
/// is no memory for them.
pub fn write_hexadecimal(bytes: &[u8], into: &mut Vec<u8>) -> Result<(), AllocError>
    ensures { OnOk result (into.new.items ≡ into.old.items ++ quoted (hexadecimal bytes.now)) }
{
    into.push(b'"')?;
    for byte in bytes {
        write_byte(*byte, into)?;
    }
    into.push(b'"')?;
    Ok(())
}
