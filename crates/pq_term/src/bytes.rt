//! The bytes that a text is made of.
ghost use Rattle.std.specs.Prelude.{◌≡◌};
ghost use Rattle.pq_term.specs.Bytes.{is_blank, is_word_byte, is_run_byte, is_symbol};

/// White space: tab, line feed, carriage return and space.
pub(crate) fn is_blank(byte: u8) -> bool
    ensures { result ≡ is_blank byte }
{
    matches!(byte, b'\t' | b'\n' | b'\r' | b' ')
}

/// A byte of a word: a letter, a digit or `_`.
pub(crate) fn is_word_byte(byte: u8) -> bool
    ensures { result ≡ is_word_byte byte }
{
    byte.is_ascii_alphanumeric() || byte == b'_'
}

/// A byte of a run: a byte of a word, `.`, `/` or `:`.
pub(crate) fn is_run_byte(byte: u8) -> bool
    ensures { result ≡ is_run_byte byte }
{
    is_word_byte(byte) || matches!(byte, b'.' | b'/' | b':')
}

/// A symbol of one byte.
pub(crate) fn is_symbol(byte: u8) -> bool
    ensures { result ≡ is_symbol byte }
{
    b"=;,()[]+^|&~*".contains(&byte)
}
