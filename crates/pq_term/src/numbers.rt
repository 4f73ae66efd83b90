//! Numbers, as digits spell them.
ghost use Rattle.std.specs.Prelude.{◌≡◌, ◌+◌, ◌-◌, ◌*◌, ◌^◌, ◌<◌, ◌≤◌, SomeIff, IfSome, if◌then◌else◌};
ghost use Rattle.std.specs.List.{list_all};
ghost use Rattle.pq_term.specs.Numbers.{digit_value, is_digit, value_of, is_decimal, is_plain, is_hex, number_of, decimal_of};

/// The value of a hexadecimal digit in either case, 0 to 15.
fn digit_value(byte: u8) -> u64
    ensures { result ≡ digit_value byte }
{
    if byte.is_ascii_digit() {
        u64::from(byte - b'0')
    } else if byte.is_ascii_uppercase() {
        u64::from(byte - b'A') + 10
    } else {
        u64::from(byte.saturating_sub(b'a' - 10))
    }
}

/// Whether the byte is a digit of the base.
fn is_digit(base: u64, byte: u8) -> bool
    ensures { result ≡ is_digit base byte }
{
    byte.is_ascii_hexdigit() && digit_value(byte) < base
}

/// Whether each byte is a digit of the base.
fn are_digits(base: u64, digits: &[u8]) -> bool
    ensures { result ≡ list_all (is_digit base) digits.now }
{
    digits.iter().all(|byte| is_digit(base, *byte))
}

/// The number that one more digit makes, unless it is beyond a `u64`.
fn with_digit(value: u64, base: u64, digit: u64) -> Option<u64>
    ensures { SomeIff result (value * base + digit < 2 ^ 64) (value * base + digit) }
{
    value.checked_mul(base)?.checked_add(digit)
}

/// The value of digits of a base, unless it is beyond a `u64`.
pub(crate) fn value_of(base: u64, digits: &[u8]) -> Option<u64>
    requires { 0 < base }
    ensures { SomeIff result (value_of base digits.now < 2 ^ 64) (value_of base digits.now) }
{
    let mut value = 0;
    for digit in digits {
        let Some(next) = with_digit(value, base, digit_value(*digit)) else {
            return None;
        };
        value = next;
    }
    Some(value)
}

/// Whether the text is `0`, or digits that begin with another one.
fn is_plain(text: &[u8]) -> bool
    ensures { result ≡ is_plain text.now }
{
    match text {
        [] => false,
        [first, rest @ ..] => are_digits(10, text) && (*first != b'0' || rest.is_empty()),
    }
}

/// The value of a decimal number without leading zeros; `None` where the text is none, or the value is beyond
/// a `u64`.
fn decimal(text: &[u8]) -> Option<u64>
    ensures { result ≡ (if is_decimal (2 ^ 64 - 1) text.now then Some (value_of 10 text.now) else None) }
{
    if is_plain(text) {
        value_of(10, text)
    } else {
        None
    }
}

/// The value of a decimal number without leading zeros, where the text is one and at most this one.
pub fn decimal_value(most: u64, text: &[u8]) -> Option<u64>
    ensures value { result ≡ decimal_of most text.now }
    ensures within { IfSome result (λ n. n ≤ most) }
{
    match decimal(text) {
        Some(value) if value <= most => Some(value),
        _ => None,
    }
}

/// Whether the text is a decimal number without leading zeros, and at most this one.
pub(crate) fn is_decimal(most: u64, text: &[u8]) -> bool
    ensures { result ≡ is_decimal most text.now }
{
    match decimal(text) {
        Some(value) => value <= most,
        None => false,
    }
}

/// Whether the text is this many hexadecimal digits, at least and at most.
pub(crate) fn is_hex(least: usize, most: usize, text: &[u8]) -> bool
    ensures { result ≡ is_hex least most text.now }
{
    least <= text.len() && text.len() <= most && are_digits(16, text)
}

/// The value of a number as a text spells it: `0`; or a digit 1 to 9 and further digits, at most
/// 18446744073709551615; or `0x` and 1 to 16 hexadecimal digits in either case. `None` where the text is none of
/// these.
pub fn number_value(text: &[u8]) -> Option<u64>
    ensures { result ≡ number_of text.now }
{
    match text {
        [b'0', b'x', digits @ ..] => hexadecimal(digits),
        _ => decimal(text),
    }
}

/// The value of 1 to 16 hexadecimal digits; `None` where the text is none.
#[tactic(auto, using(crate::proofs::Digits::hexadecimal_fits))]
fn hexadecimal(digits: &[u8]) -> Option<u64>
    ensures { result ≡ (if is_hex 1 16 digits.now then Some (value_of 16 digits.now) else None) }
{
    if is_hex(1, 16, digits) {
        value_of(16, digits)
    } else {
        None
    }
}
