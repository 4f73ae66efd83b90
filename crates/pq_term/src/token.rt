//! What a text is divided into.
ghost use Rattle.std.specs.Prelude.{◌≡◌, ◌+◌, ◌≤◌, length};
ghost use Rattle.pq_term.specs.Tokens.{text_of};

/// The kind of a token.
#[derive(Clone, Copy, Debug, PartialEq, Eq)]
pub enum Kind {
    /// A letter, and then letters, digits and `_`: at most 32 bytes.
    Word,
    /// A decimal number below 2^64 without leading zeros, or `0x` and 1 to 16 hexadecimal digits.
    Number,
    /// Six groups of two hexadecimal digits, joined by `:`.
    Mac,
    /// Four decimal numbers up to 255 without leading zeros, joined by `.`.
    Ipv4,
    /// An IPv4 address, `/`, and a decimal number up to 32 without leading zeros.
    Ipv4Prefix,
    /// Eight groups of one to four hexadecimal digits, joined by `:`; then possibly `/` and a decimal
    /// number up to 128 without leading zeros.
    Ipv6,
    /// One of `= ; , ( ) [ ] + >> ^ | & ~ *`, which the token's text tells apart.
    Symbol,
}

/// A token: its kind, the place of its first byte in the text, and the number of its bytes.
#[derive(Clone, Copy, Debug, PartialEq, Eq)]
pub struct Token {
    pub kind: Kind,
    pub at: usize,
    pub len: usize,
}

impl Token {
    /// The token's bytes in the text that it is a token of.
    pub fn text<'a>(&self, bytes: &'a [u8]) -> &'a [u8]
        requires { self.now.at + self.now.len ≤ length bytes.now }
        ensures { result.now ≡ text_of bytes.now self.now }
    {
        &bytes[self.at..self.at + self.len]
    }
}

/// What comes next in a text.
#[derive(Clone, Copy, Debug, PartialEq, Eq)]
pub enum Next {
    /// A token.
    Token(Token),
    /// Nothing but white space and comments.
    End,
    /// Something that is not a token, with the place of its first byte.
    NoToken(usize),
}
